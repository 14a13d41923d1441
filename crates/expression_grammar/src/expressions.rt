//! Expressions.

ghost use Rattle.std.specs.Prelude.{◌≡◌, ◌≢◌, ◌++◌, IfOk, true, false};
ghost use Rattle.ar_lexer.specs.declared.token.TokenKind.TheVariants.{Sign, Reserved, End};
ghost use Rattle.ar_lexer.specs.declared.signs.TheConstants.{COMMA};
ghost use Rattle.ar_lexer.specs.declared.words.TheConstants.{CASE};
ghost use Rattle.expression_grammar.specs.Words.{token, deep, ◌▸◌, between, each, many};
ghost use Rattle.expression_grammar.specs.Expressions.{Node, ReadsExpr, ReadsNot, ReadsMinus, ReadsProduct, ReadsSum, ReadsTerm, ReadsCompare, ReadsPrimary, ReadsIf, ReadsSwitch, ReadsCase, ReadsOperands};
ghost use Rattle.expression_grammar.specs.Chains.{separator_of, operand_form, chain_form, ends_operand, ends_chain};
ghost use Rattle.expression_grammar.specs.Texts.{expr_tokens, not_tokens, minus_tokens, if_tokens, compare_tokens, sum_tokens, product_tokens, primary_tokens, operands_tokens, switch_tokens};
ghost use Rattle.expression_grammar.specs.Results.{first_token_kind, TakesTokens, FindsRefusal, Halts, Spans, anything, ends_path, ends_sum, ends_not, ends_expr, ends_list, ends_cases, begins_term};
ghost use Rattle.expression_grammar.specs.Parts.{operand_tokens, chain_tokens, term_tokens, case_tokens};

use crate::begins::{begins_expr, begins_minus, begins_not};
use crate::cursor::{Parser, no_room};
use crate::lexeme::Refusal;
use crate::lists::{in_box, list_of, put};
use crate::terms::{Chain, call_at, call_of, chain_of, constant_of, separator_of};
use ar_lexer::{TokenKind, signs, words};
use ar_syntax::{RawExpr, RawForm};

impl<'a> Parser<'a> {
    /// Takes an expression, with room for `left` open productions. `Syntax` stops at the first token that goes on with none,
    /// `Depth` at one that would open a production too many, and `Memory` tells that memory was refused.
    #[cycle(expression)]
    pub fn expr(&mut self, left: u32) -> Result<RawExpr, Refusal>
        ensures found { TakesTokens (Node (ReadsExpr left)) result self.old.rest.now self.new.rest.now }
        ensures only { FindsRefusal (expr_tokens deep) ends_expr left result self.old.rest.now
            self.new.rest.now }
        ensures stuck { Halts (expr_tokens deep) left result self.old.rest.now self.new.rest.now }
        ensures end { self.new.end ≡ self.old.end }
    {
        if left == 0 {
            return Err(no_room(begins_expr(self.kind())));
        }
        if self.is_at(TokenKind::Reserved(words::IF)) {
            return self.choice(left - 1);
        }
        self.chain(Chain::Any, left - 1)
    }

    /// Takes an expression between two tokens, of which the second goes on with no expression. It fails as `expr` does.
    #[cycle(expression)]
    pub fn enclosed(
        &mut self,
        opens: TokenKind,
        closes: TokenKind,
        left: u32,
    ) -> Result<RawExpr, Refusal>
        requires opens { opens ≢ End }
        requires closes { closes ≢ End }
        requires ends { ends_expr closes ≡ true }
        ensures found { TakesTokens (λ e. between opens closes (Node (ReadsExpr left) e)) result
            self.old.rest.now self.new.rest.now }
        ensures only { FindsRefusal (λ n. between opens closes (expr_tokens deep n)) anything left result
            self.old.rest.now self.new.rest.now }
        ensures stuck { Halts (λ n. between opens closes (expr_tokens deep n)) left result
            self.old.rest.now self.new.rest.now }
        ensures end { self.new.end ≡ self.old.end }
    {
        self.expect(opens)?;
        let inner = self.expr(left)?;
        self.expect(closes)?;
        Ok(inner)
    }

    /// Takes a test between two tokens and the value behind them.
    #[cycle(expression)]
    fn case(
        &mut self,
        opens: TokenKind,
        closes: TokenKind,
        left: u32,
    ) -> Result<(RawExpr, RawExpr), Refusal>
        requires opens { opens ≢ End }
        requires closes { closes ≢ End }
        requires ends { ends_expr closes ≡ true }
        ensures found { TakesTokens (λ x. between opens closes (Node (ReadsExpr left) x.0)
            ▸ Node (ReadsExpr left) x.1) result self.old.rest.now self.new.rest.now }
        ensures only { FindsRefusal (λ n. between opens closes (expr_tokens deep n) ▸ expr_tokens deep n)
            ends_expr left result self.old.rest.now self.new.rest.now }
        ensures stuck { Halts (λ n. between opens closes (expr_tokens deep n) ▸ expr_tokens deep n) left
            result self.old.rest.now self.new.rest.now }
        ensures end { self.new.end ≡ self.old.end }
    {
        let test = self.enclosed(opens, closes, left)?;
        let value = self.expr(left)?;
        Ok((test, value))
    }

    /// Takes a choice between two values: "if" Expr "then" Expr "else" Expr.
    #[cycle(expression)]
    fn choice(&mut self, left: u32) -> Result<RawExpr, Refusal>
        ensures found { TakesTokens (Node (ReadsIf (ReadsExpr left))) result self.old.rest.now
            self.new.rest.now }
        ensures only { FindsRefusal (λ n. if_tokens (expr_tokens deep n)) ends_expr left result
            self.old.rest.now self.new.rest.now }
        ensures stuck { Halts (λ n. if_tokens (expr_tokens deep n)) left result self.old.rest.now
            self.new.rest.now }
        ensures end { self.new.end ≡ self.old.end }
    {
        let start = self.rest;
        let case = self.case(
            TokenKind::Reserved(words::IF),
            TokenKind::Reserved(words::THEN),
            left,
        )?;
        self.expect(TokenKind::Reserved(words::ELSE))?;
        let other = self.expr(left)?;
        let cases = list_of(self.alloc, case)?;
        let boxed = in_box(self.alloc, other)?;
        Ok(self.node(start, RawForm::Choose(cases, boxed)))
    }

    /// Takes operands with one separator between them; one operand alone is itself.
    #[cycle(expression)]
    fn chain(&mut self, chain: Chain, left: u32) -> Result<RawExpr, Refusal>
        ensures found { TakesTokens (Node (chain_form chain left)) result self.old.rest.now
            self.new.rest.now }
        ensures only { FindsRefusal (chain_tokens chain) (ends_chain chain) left result self.old.rest.now
            self.new.rest.now }
        ensures stuck { Halts (chain_tokens chain) left result self.old.rest.now self.new.rest.now }
        ensures end { self.new.end ≡ self.old.end }
    {
        let start = self.rest;
        let first = self.operand(chain, left)?;
        if !self.is_at(separator_of(chain)) {
            return Ok(first);
        }
        let mut operands = list_of(self.alloc, first)?;
        self.more_operands(chain, left, &mut operands)?;
        Ok(self.node(start, chain_of(chain, operands)))
    }

    /// Takes the operands behind the first.
    #[cycle(expression)]
    fn more_operands(
        &mut self,
        chain: Chain,
        left: u32,
        operands: &mut Vec<RawExpr>,
    ) -> Result<(), Refusal>
        ensures found { IfOk result (λ _. (more : _)
            × (operands.new.items ≡ operands.old.items ++ more)
            × Spans (each (λ e. token (separator_of chain) ▸ Node (operand_form chain left) e) more)
            self.old.rest.now self.new.rest.now) }
        ensures over { IfOk result (λ _. first_token_kind self.new.rest.now ≢ separator_of chain) }
        ensures only { FindsRefusal (λ n. many (token (separator_of chain) ▸ operand_tokens chain n))
            (ends_chain chain) left result self.old.rest.now self.new.rest.now }
        ensures stuck { Halts (λ n. many (token (separator_of chain) ▸ operand_tokens chain n)) left
            result self.old.rest.now self.new.rest.now }
        ensures end { self.new.end ≡ self.old.end }
    {
        let separator = separator_of(chain);
        while self.eat(separator) {
            let operand = self.operand(chain, left)?;
            put(operands, operand)?;
        }
        Ok(())
    }

    /// Takes one operand of a chain.
    #[cycle(expression)]
    fn operand(&mut self, chain: Chain, left: u32) -> Result<RawExpr, Refusal>
        ensures found { TakesTokens (Node (operand_form chain left)) result self.old.rest.now
            self.new.rest.now }
        ensures only { FindsRefusal (operand_tokens chain) (ends_operand chain) left result self.old.rest.now
            self.new.rest.now }
        ensures stuck { Halts (operand_tokens chain) left result self.old.rest.now self.new.rest.now }
        ensures end { self.new.end ≡ self.old.end }
    {
        match chain {
            Chain::Any => self.chain(Chain::All, left),
            Chain::All => self.not(left),
            Chain::Product => self.minus(left),
        }
    }

    /// Takes "not" Not | Compare.
    #[cycle(expression)]
    fn not(&mut self, left: u32) -> Result<RawExpr, Refusal>
        ensures found { TakesTokens (Node (ReadsNot left)) result self.old.rest.now self.new.rest.now }
        ensures only { FindsRefusal (not_tokens deep) ends_not left result self.old.rest.now
            self.new.rest.now }
        ensures stuck { Halts (not_tokens deep) left result self.old.rest.now self.new.rest.now }
        ensures end { self.new.end ≡ self.old.end }
    {
        if left == 0 {
            return Err(no_room(begins_not(self.kind())));
        }
        let start = self.rest;
        if self.eat(TokenKind::Reserved(words::NOT)) {
            let operand = self.not(left - 1)?;
            let boxed = in_box(self.alloc, operand)?;
            return Ok(self.node(start, RawForm::Not(boxed)));
        }
        self.compare(left - 1)
    }

    /// Takes Sum [ relation Sum ].
    #[cycle(expression)]
    fn compare(&mut self, left: u32) -> Result<RawExpr, Refusal>
        ensures found { TakesTokens (Node (ReadsCompare (ReadsSum (ReadsProduct (ReadsMinus left))))) result
            self.old.rest.now self.new.rest.now }
        ensures only { FindsRefusal (λ n. compare_tokens (sum_tokens (product_tokens (minus_tokens deep n))))
            ends_not left result self.old.rest.now self.new.rest.now }
        ensures stuck { Halts (λ n. compare_tokens (sum_tokens (product_tokens (minus_tokens deep n)))) left
            result self.old.rest.now self.new.rest.now }
        ensures end { self.new.end ≡ self.old.end }
    {
        let start = self.rest;
        let first = self.sum(left)?;
        match self.eat_relation() {
            None => Ok(first),
            Some(relation) => {
                let second = self.sum(left)?;
                let form = self.compared(relation, first, second)?;
                Ok(self.node(start, form))
            }
        }
    }

    /// Takes Product { ( "+" | "-" ) Product }.
    #[cycle(expression)]
    fn sum(&mut self, left: u32) -> Result<RawExpr, Refusal>
        ensures found { TakesTokens (Node (ReadsSum (ReadsProduct (ReadsMinus left)))) result self.old.rest.now
            self.new.rest.now }
        ensures only { FindsRefusal (λ n. sum_tokens (product_tokens (minus_tokens deep n))) ends_sum left result
            self.old.rest.now self.new.rest.now }
        ensures stuck { Halts (λ n. sum_tokens (product_tokens (minus_tokens deep n))) left result
            self.old.rest.now self.new.rest.now }
        ensures end { self.new.end ≡ self.old.end }
    {
        let start = self.rest;
        let first = self.chain(Chain::Product, left)?;
        if !self.is_at_term() {
            return Ok(first);
        }
        let mut terms = list_of(self.alloc, (true, first))?;
        self.more_terms(left, &mut terms)?;
        Ok(self.node(start, RawForm::Sum(terms)))
    }

    /// Takes the terms behind the first.
    #[cycle(expression)]
    fn more_terms(&mut self, left: u32, terms: &mut Vec<(bool, RawExpr)>) -> Result<(), Refusal>
        ensures found { IfOk result (λ _. (more : _) × (terms.new.items ≡ terms.old.items ++ more)
            × Spans (each (ReadsTerm (ReadsProduct (ReadsMinus left))) more) self.old.rest.now
            self.new.rest.now) }
        ensures over { IfOk result (λ _. begins_term (first_token_kind self.new.rest.now) ≡ false) }
        ensures only { FindsRefusal (λ n. many (term_tokens n)) ends_sum left result self.old.rest.now
            self.new.rest.now }
        ensures stuck { Halts (λ n. many (term_tokens n)) left result self.old.rest.now
            self.new.rest.now }
        ensures end { self.new.end ≡ self.old.end }
    {
        while let Some(plus) = self.eat_plus() {
            let term = self.chain(Chain::Product, left)?;
            put(terms, (plus, term))?;
        }
        Ok(())
    }

    /// Takes "-" Minus | Primary.
    #[cycle(expression)]
    fn minus(&mut self, left: u32) -> Result<RawExpr, Refusal>
        ensures found { TakesTokens (Node (ReadsMinus left)) result self.old.rest.now self.new.rest.now }
        ensures only { FindsRefusal (minus_tokens deep) ends_path left result self.old.rest.now
            self.new.rest.now }
        ensures stuck { Halts (minus_tokens deep) left result self.old.rest.now self.new.rest.now }
        ensures end { self.new.end ≡ self.old.end }
    {
        if left == 0 {
            return Err(no_room(begins_minus(self.kind())));
        }
        let start = self.rest;
        if self.eat(TokenKind::Sign(signs::MINUS)) {
            let operand = self.minus(left - 1)?;
            let boxed = in_box(self.alloc, operand)?;
            return Ok(self.node(start, RawForm::Minus(boxed)));
        }
        self.primary(left - 1)
    }

    /// Takes a constant, a path, a call, a choice or an expression in brackets.
    #[cycle(expression)]
    fn primary(&mut self, left: u32) -> Result<RawExpr, Refusal>
        ensures found { TakesTokens (Node (ReadsPrimary (ReadsExpr left))) result self.old.rest.now
            self.new.rest.now }
        ensures only { FindsRefusal (λ n. primary_tokens (expr_tokens deep n)) ends_path left result
            self.old.rest.now self.new.rest.now }
        ensures stuck { Halts (λ n. primary_tokens (expr_tokens deep n)) left result self.old.rest.now
            self.new.rest.now }
        ensures end { self.new.end ≡ self.old.end }
    {
        let start = self.rest;
        if let Some(form) = constant_of(self.kind()) {
            self.skip();
            return Ok(self.node(start, form));
        }
        if self.is_at(TokenKind::Sign(signs::OPEN_PARENTHESIS)) {
            let inner = self.enclosed(
                TokenKind::Sign(signs::OPEN_PARENTHESIS),
                TokenKind::Sign(signs::CLOSE_PARENTHESIS),
                left,
            )?;
            return Ok(self.node(start, inner.form));
        }
        if self.is_at(TokenKind::Reserved(words::SWITCH)) {
            return self.switch(left);
        }
        if let Some(call) = call_at(self.kind()) {
            self.skip();
            let operands = self.operands(left)?;
            return Ok(self.node(start, call_of(call, operands)));
        }
        let path = self.path()?;
        Ok(self.node(start, RawForm::Path(path)))
    }

    /// Takes "(" Expr { "," Expr } ")".
    #[cycle(expression)]
    fn operands(&mut self, left: u32) -> Result<Vec<RawExpr>, Refusal>
        ensures found { TakesTokens (λ operands. ReadsOperands (ReadsExpr left) operands.items) result
            self.old.rest.now self.new.rest.now }
        ensures only { FindsRefusal (λ n. operands_tokens (expr_tokens deep n)) anything left result
            self.old.rest.now self.new.rest.now }
        ensures stuck { Halts (λ n. operands_tokens (expr_tokens deep n)) left result self.old.rest.now
            self.new.rest.now }
        ensures end { self.new.end ≡ self.old.end }
    {
        self.expect(TokenKind::Sign(signs::OPEN_PARENTHESIS))?;
        let first = self.expr(left)?;
        let mut operands = list_of(self.alloc, first)?;
        self.more_arguments(left, &mut operands)?;
        self.expect(TokenKind::Sign(signs::CLOSE_PARENTHESIS))?;
        Ok(operands)
    }

    /// Takes { "," Expr }.
    #[cycle(expression)]
    fn more_arguments(&mut self, left: u32, operands: &mut Vec<RawExpr>) -> Result<(), Refusal>
        ensures found { IfOk result (λ _. (more : _)
            × (operands.new.items ≡ operands.old.items ++ more)
            × Spans (each (λ e. token (Sign COMMA) ▸ Node (ReadsExpr left) e) more) self.old.rest.now
            self.new.rest.now) }
        ensures only { FindsRefusal (λ n. many (token (Sign COMMA) ▸ expr_tokens deep n)) ends_list left
            result self.old.rest.now self.new.rest.now }
        ensures stuck { Halts (λ n. many (token (Sign COMMA) ▸ expr_tokens deep n)) left result
            self.old.rest.now self.new.rest.now }
        ensures end { self.new.end ≡ self.old.end }
    {
        while self.eat(TokenKind::Sign(signs::COMMA)) {
            let operand = self.expr(left)?;
            put(operands, operand)?;
        }
        Ok(())
    }

    /// Takes "switch" "{" Case { Case } "default" ":" Expr "}".
    #[cycle(expression)]
    fn switch(&mut self, left: u32) -> Result<RawExpr, Refusal>
        ensures found { TakesTokens (Node (ReadsSwitch (ReadsExpr left))) result self.old.rest.now
            self.new.rest.now }
        ensures only { FindsRefusal (λ n. switch_tokens (expr_tokens deep n)) anything left result
            self.old.rest.now self.new.rest.now }
        ensures stuck { Halts (λ n. switch_tokens (expr_tokens deep n)) left result self.old.rest.now
            self.new.rest.now }
        ensures end { self.new.end ≡ self.old.end }
    {
        let start = self.rest;
        self.expect(TokenKind::Reserved(words::SWITCH))?;
        self.expect(TokenKind::Sign(signs::OPEN_BRACE))?;
        let cases = self.cases(left)?;
        if cases.as_slice().is_empty() {
            return Err(Refusal::Syntax);
        }
        self.expect(TokenKind::Reserved(words::DEFAULT))?;
        let other = self.enclosed(
            TokenKind::Sign(signs::COLON),
            TokenKind::Sign(signs::CLOSE_BRACE),
            left,
        )?;
        let boxed = in_box(self.alloc, other)?;
        Ok(self.node(start, RawForm::Choose(cases, boxed)))
    }

    /// Takes { "case" Expr ":" Expr }.
    #[cycle(expression)]
    fn cases(&mut self, left: u32) -> Result<Vec<(RawExpr, RawExpr)>, Refusal>
        ensures found { TakesTokens (λ cases. each (ReadsCase (ReadsExpr left)) cases.items) result
            self.old.rest.now self.new.rest.now }
        ensures over { IfOk result (λ _. first_token_kind self.new.rest.now ≢ Reserved CASE) }
        ensures only { FindsRefusal (λ n. many (case_tokens n)) ends_cases left result self.old.rest.now
            self.new.rest.now }
        ensures stuck { Halts (λ n. case_tokens n ▸ many (case_tokens n)) left result self.old.rest.now
            self.new.rest.now }
        ensures end { self.new.end ≡ self.old.end }
    {
        let mut cases = Vec::new(self.alloc);
        while self.is_at(TokenKind::Reserved(words::CASE)) {
            let case = self.case(
                TokenKind::Reserved(words::CASE),
                TokenKind::Sign(signs::COLON),
                left,
            )?;
            put(&mut cases, case)?;
        }
        Ok(cases)
    }
}
