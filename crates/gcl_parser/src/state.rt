use crate::fault::QueryKind;
use crate::token::Token;

/// How many brackets may be open at once.
const MOST_BRACKETS: u64 = 12;

/// How many quoted texts and widths a query may have.
const MOST_OPERANDS: u64 = 256;

/// What is to come at a place, and what comes before it.
#[derive(Clone, Copy)]
pub struct State {
    /// Whether an operand is to come; else an operator or a `)` is.
    pub wants_operand: bool,
    /// How many brackets are open.
    pub opened: u64,
    /// How many quoted texts and widths come before.
    pub operands: u64,
}

impl State {
    ghost use Rattle.std.specs.Prelude.{◌≡◌, ℕ, List, true, IfOk, IfErr};
    ghost use Rattle.gcl_parser.specs.Refusal.{fault_at_end as kind_at_end};
    ghost use Rattle.gcl_parser.specs.Reading.{IsPassed, IsStopped};
    ghost use Rattle.gcl_parser.specs.Scanned.{shown};
    ghost use Rattle.gcl_parser.specs.QueryTokens.{operand, joint, containment, open_bracket, close_bracket};
    ghost use Rattle.gcl_model.specs.Forms.{Form};
    ghost use Rattle.gcl_parser.specs.declared.token.Joint.{Joint};
    ghost use Rattle.gcl_model.specs.declared.containment.Containment.{Containment};

    /// Before the first token.
    pub fn start() -> Self
        ensures { result ≡ record { wants_operand = true; opened = 0; operands = 0 } }
    {
        State {
            wants_operand: true,
            opened: 0,
            operands: 0,
        }
    }

    /// The state after a token, or what is wrong with the token.
    pub fn pass(self, token: Token) -> Result<State, QueryKind>
        ensures ok { IfOk result (λ next. (text : List ℕ) → IsPassed self (shown text token) next) }
        ensures err { IfErr result (λ kind. (text : List ℕ) → IsStopped self (shown text token) kind) }
    {
        match token {
            Token::Broken(kind) => Err(kind),
            Token::Quoted(_, _) => self.pass_operand(),
            Token::Prefix(_, _) => self.pass_operand(),
            Token::Width(_) => self.pass_operand(),
            Token::Joint(_) => self.pass_operator(),
            Token::Containment(_) => self.pass_operator(),
            Token::Open => self.pass_open(),
            Token::Close => self.pass_close(),
        }
    }

    fn pass_operand(self) -> Result<State, QueryKind>
        ensures ok { IfOk result (λ next. (form : Form) → IsPassed self (operand form) next) }
        ensures err { IfErr result (λ kind. (form : Form) → IsStopped self (operand form) kind) }
    {
        if !self.wants_operand {
            return Err(QueryKind::OperatorOrCloseExpected);
        }
        if self.operands >= MOST_OPERANDS {
            return Err(QueryKind::TooLarge);
        }
        Ok(State {
            wants_operand: false,
            opened: self.opened,
            operands: self.operands + 1,
        })
    }

    fn pass_open(self) -> Result<State, QueryKind>
        ensures ok { IfOk result (λ next. IsPassed self open_bracket next) }
        ensures err { IfErr result (λ kind. IsStopped self open_bracket kind) }
    {
        if !self.wants_operand {
            return Err(QueryKind::OperatorOrCloseExpected);
        }
        if self.opened >= MOST_BRACKETS {
            return Err(QueryKind::TooDeep);
        }
        Ok(State {
            wants_operand: true,
            opened: self.opened + 1,
            operands: self.operands,
        })
    }

    fn pass_close(self) -> Result<State, QueryKind>
        ensures ok { IfOk result (λ next. IsPassed self close_bracket next) }
        ensures err { IfErr result (λ kind. IsStopped self close_bracket kind) }
    {
        if self.wants_operand {
            return Err(QueryKind::OperandExpected);
        }
        if self.opened == 0 {
            return Err(QueryKind::OperatorOrCloseExpected);
        }
        Ok(State {
            wants_operand: false,
            opened: self.opened - 1,
            operands: self.operands,
        })
    }

    fn pass_operator(self) -> Result<State, QueryKind>
        ensures joint_ok { IfOk result (λ next. (j : Joint) → IsPassed self (joint j) next) }
        ensures joint_err { IfErr result (λ kind. (j : Joint) → IsStopped self (joint j) kind) }
        ensures containment_ok { IfOk result (λ next. (operator : Containment) → IsPassed self (containment operator) next) }
        ensures containment_err { IfErr result (λ kind. (operator : Containment) → IsStopped self (containment operator) kind) }
    {
        if self.wants_operand {
            return Err(QueryKind::OperandExpected);
        }
        Ok(State {
            wants_operand: true,
            opened: self.opened,
            operands: self.operands,
        })
    }

    /// What is wrong with the end of the text.
    pub fn fault_at_end(self) -> Option<QueryKind>
        ensures { result ≡ kind_at_end self.wants_operand self.opened }
    {
        if self.wants_operand {
            Some(QueryKind::OperandExpected)
        } else if self.opened > 0 {
            Some(QueryKind::OperatorOrCloseExpected)
        } else {
            None
        }
    }
}
