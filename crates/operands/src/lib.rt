// The operators and literals of an expression, by the elements that spell them. Every function takes any number and any tables.
#![tactic(auto)]

ghost use Rattle.std.specs.Prelude.{◌≡◌};
ghost use Rattle.operands.specs.code.Leaves.{whole_leaf, truth_leaf, wrong_leaf, literal_leaf};
ghost use Rattle.operands.specs.SpelledOperators.{operator_of, sign_of};
ghost use Rattle.operands.specs.code.Operands.{literal_in};

use folding::{Logic, Operator, Outcome, Relation, Sign, Sort};
use integers::{Arithmetic, Folded, Kind};
use places::ElementNumber;

// The kinds of the elements that are operators: each is proved to be the one that its spelling computes to.
const DOUBLE_STAR: u64 = 9;

const STAR: u64 = 19;

const SLASH: u64 = 24;

const WORD_MOD: u64 = 85;

const WORD_REM: u64 = 112;

const PLUS: u64 = 20;

const MINUS: u64 = 22;

const EQUAL: u64 = 28;

const NOT_EQUAL: u64 = 11;

const LESS: u64 = 27;

const LESS_EQUAL: u64 = 13;

const GREATER: u64 = 29;

const GREATER_EQUAL: u64 = 12;

const WORD_AND: u64 = 38;

const WORD_OR: u64 = 95;

const WORD_NAND: u64 = 86;

const WORD_NOR: u64 = 89;

const WORD_XOR: u64 = 147;

const WORD_XNOR: u64 = 146;

const WORD_ABS: u64 = 33;

const WORD_NOT: u64 = 90;

pub fn whole_leaf(z: i32) -> Outcome
    ensures { result ≡ whole_leaf z }
{
    Outcome {
        sort: Sort::Of(Kind::Integer),
        folded: Folded::Whole(z),
    }
}

pub fn truth_leaf(t: bool) -> Outcome
    ensures { result ≡ truth_leaf t }
{
    Outcome {
        sort: Sort::Of(Kind::Truth),
        folded: Folded::Truth(t),
    }
}

pub fn wrong_leaf(s: u8) -> Outcome
    ensures { result ≡ wrong_leaf s }
{
    Outcome {
        sort: Sort::Wrong(s),
        folded: Folded::Stopped(s),
    }
}

pub fn literal_leaf(s: &[u8]) -> Outcome
    ensures { result ≡ literal_leaf s.now }
{
    Outcome {
        sort: Sort::Of(Kind::Integer),
        folded: literals::literal(s),
    }
}

// The binary operator that an element of a kind spells; `&` where none of the others is meant.
pub fn operator_of(kind: u64) -> Operator
    ensures { result ≡ operator_of kind }
{
    match kind {
        DOUBLE_STAR => Operator::Arithmetic(Arithmetic::Power),
        STAR => Operator::Arithmetic(Arithmetic::Multiply),
        SLASH => Operator::Arithmetic(Arithmetic::Divide),
        WORD_MOD => Operator::Arithmetic(Arithmetic::Modulo),
        WORD_REM => Operator::Arithmetic(Arithmetic::Remainder),
        PLUS => Operator::Arithmetic(Arithmetic::Add),
        MINUS => Operator::Arithmetic(Arithmetic::Subtract),
        EQUAL => Operator::Relation(Relation::Equal),
        NOT_EQUAL => Operator::Relation(Relation::Unequal),
        LESS => Operator::Relation(Relation::Less),
        LESS_EQUAL => Operator::Relation(Relation::LessEqual),
        GREATER => Operator::Relation(Relation::Greater),
        GREATER_EQUAL => Operator::Relation(Relation::GreaterEqual),
        WORD_AND => Operator::Logic(Logic::And),
        WORD_OR => Operator::Logic(Logic::Or),
        WORD_NAND => Operator::Logic(Logic::Nand),
        WORD_NOR => Operator::Logic(Logic::Nor),
        WORD_XOR => Operator::Logic(Logic::Xor),
        WORD_XNOR => Operator::Logic(Logic::Xnor),
        _ => Operator::Join,
    }
}

// The sign, `abs` or `not` that an element of a kind spells; `+` where none of the others is meant.
pub fn sign_of(kind: u64) -> Sign
    ensures { result ≡ sign_of kind }
{
    match kind {
        MINUS => Sign::Minus,
        WORD_ABS => Sign::Absolute,
        WORD_NOT => Sign::Not,
        _ => Sign::Plus,
    }
}

// A literal's outcome: an integer's number; any other kind isn't folded.
pub fn literal_outcome(text: &[u8], elements: &[u64], e: ElementNumber) -> Outcome
    ensures { result ≡ literal_in text.now elements.now e.0 }
{
    if places::kind_of(elements, e) != places::INTEGER_LITERAL {
        return wrong_leaf(states::UNFOLDED);
    }
    let place = places::place_of(elements, e);
    let first = place.0.min(text.len());
    let size = (places::size_of(elements, e) as usize).min(text.len() - first);
    let end = first + size;
    literal_leaf(&text[first..end])
}
