// Folding: what an operator makes of folded operands, and which state stops an expression. Every function takes any operands.
#![tactic(auto)]

ghost use Rattle.std.specs.Prelude.{◌≡◌};
ghost use Rattle.folding.specs.Operators.{relation_of, logic_of, decides};
ghost use Rattle.folding.specs.code.Folding.{on_wholes, on_truths, after_whole, after_truth, short_circuit, beside_truth, binary_of, signed_whole, not_of, unary_of};
ghost use Rattle.folding.specs.code.Outcomes.{number_sort, boolean_sort, wrong_sort, beside_integer, beside_boolean, kinds_sort, operator_sort, integer_signed, boolean_signed, kind_signed, sign_sort, combined_of, signed_of, settled_of};

use integers::{Arithmetic, Folded, Kind};

#[derive(Clone, Copy)]
pub enum Relation {
    Equal,
    Unequal,
    Less,
    LessEqual,
    Greater,
    GreaterEqual,
}

#[derive(Clone, Copy)]
pub enum Logic {
    And,
    Or,
    Nand,
    Nor,
    Xor,
    Xnor,
}

// The binary operators; `&` joins and folds to nothing.
#[derive(Clone, Copy)]
pub enum Operator {
    Arithmetic(Arithmetic),
    Relation(Relation),
    Logic(Logic),
    Join,
}

#[derive(Clone, Copy)]
pub enum Sign {
    Plus,
    Minus,
    Absolute,
    Not,
}

// What every element of an expression says of it: the kind of its value, or the smallest of the states 3 to 6 in it.
// Not a Result: both sides' states are looked at, which no `?` does, and Of and Wrong are the names by which `operator_sort` is defined.
#[derive(Clone, Copy)]
pub enum Sort {
    Of(Kind),
    Wrong(u8),
}

// An expression's outcome: its sort, and its value or the first of the states 7 to 9 met.
#[derive(Clone, Copy)]
pub struct Outcome {
    pub sort: Sort,
    pub folded: Folded,
}

fn relates(op: Relation, a: i32, b: i32) -> bool
    ensures { result ≡ relation_of op a b }
{
    match op {
        Relation::Equal => a == b,
        Relation::Unequal => a != b,
        Relation::Less => a < b,
        Relation::LessEqual => a <= b,
        Relation::Greater => a > b,
        Relation::GreaterEqual => a >= b,
    }
}

fn connected(op: Logic, t: bool, u: bool) -> bool
    ensures { result ≡ logic_of op t u }
{
    match op {
        Logic::And => t & u,
        Logic::Or => t | u,
        Logic::Nand => !(t & u),
        Logic::Nor => !(t | u),
        Logic::Xor => t ^ u,
        Logic::Xnor => t == u,
    }
}

// Whether the left side decides alone.
fn left_decides(op: Logic, t: bool) -> bool
    ensures { result ≡ decides op t }
{
    match op {
        Logic::And | Logic::Nand => !t,
        Logic::Or | Logic::Nor => t,
        Logic::Xor | Logic::Xnor => false,
    }
}

fn on_wholes(op: Operator, a: i32, b: i32) -> Folded
    ensures { result ≡ on_wholes op a b }
{
    match op {
        Operator::Arithmetic(o) => integers::computed(o, a, b),
        Operator::Relation(o) => Folded::Truth(relates(o, a, b)),
        Operator::Logic(_) => Folded::Stopped(states::KIND),
        Operator::Join => Folded::Stopped(states::UNFOLDED),
    }
}

fn on_truths(op: Operator, t: bool, u: bool) -> Folded
    ensures { result ≡ on_truths op t u }
{
    match op {
        Operator::Arithmetic(_) => Folded::Stopped(states::KIND),
        Operator::Relation(o) => Folded::Truth(relates(o, i32::from(t), i32::from(u))),
        Operator::Logic(o) => Folded::Truth(connected(o, t, u)),
        Operator::Join => Folded::Stopped(states::UNFOLDED),
    }
}

fn after_whole(op: Operator, a: i32, y: Folded) -> Folded
    ensures { result ≡ after_whole op a y }
{
    match y {
        Folded::Whole(b) => on_wholes(op, a, b),
        Folded::Truth(_) => Folded::Stopped(states::KIND),
        Folded::Stopped(s) => Folded::Stopped(s),
    }
}

fn after_truth(op: Operator, t: bool, y: Folded) -> Folded
    ensures { result ≡ after_truth op t y }
{
    match y {
        Folded::Whole(_) => Folded::Stopped(states::KIND),
        Folded::Truth(u) => on_truths(op, t, u),
        Folded::Stopped(s) => Folded::Stopped(s),
    }
}

// A logic operator whose left side is known: the right side counts only where the left does not decide.
fn short_circuit(o: Logic, t: bool, y: Folded) -> Folded
    ensures { result ≡ short_circuit o t y }
{
    if left_decides(o, t) {
        return Folded::Truth(connected(o, t, t));
    }
    after_truth(Operator::Logic(o), t, y)
}

fn beside_truth(op: Operator, t: bool, y: Folded) -> Folded
    ensures { result ≡ beside_truth op t y }
{
    match op {
        Operator::Logic(o) => short_circuit(o, t, y),
        _ => after_truth(op, t, y),
    }
}

// A binary operator on two folded operands.
fn binary(op: Operator, x: Folded, y: Folded) -> Folded
    ensures { result ≡ binary_of op x y }
{
    match x {
        Folded::Whole(a) => after_whole(op, a, y),
        Folded::Truth(t) => beside_truth(op, t, y),
        Folded::Stopped(s) => Folded::Stopped(s),
    }
}

fn sign_whole(op: Sign, a: i32) -> Folded
    ensures { result ≡ signed_whole op a }
{
    match op {
        Sign::Plus => integers::kept(a),
        Sign::Minus => integers::negated(a),
        Sign::Absolute => integers::absolute(a),
        Sign::Not => Folded::Stopped(states::KIND),
    }
}

fn sign_truth(op: Sign, t: bool) -> Folded
    ensures { result ≡ not_of op t }
{
    match op {
        Sign::Plus | Sign::Minus | Sign::Absolute => Folded::Stopped(states::KIND),
        Sign::Not => Folded::Truth(!t),
    }
}

// A sign, `abs` or `not` on a folded operand.
fn unary(op: Sign, x: Folded) -> Folded
    ensures { result ≡ unary_of op x }
{
    match x {
        Folded::Whole(a) => sign_whole(op, a),
        Folded::Truth(t) => sign_truth(op, t),
        Folded::Stopped(s) => Folded::Stopped(s),
    }
}

fn number_sort(op: Operator) -> Sort
    ensures { result ≡ number_sort op }
{
    match op {
        Operator::Arithmetic(_) => Sort::Of(Kind::Integer),
        Operator::Relation(_) => Sort::Of(Kind::Truth),
        Operator::Logic(_) => Sort::Wrong(states::KIND),
        Operator::Join => Sort::Wrong(states::UNFOLDED),
    }
}

fn boolean_sort(op: Operator) -> Sort
    ensures { result ≡ boolean_sort op }
{
    match op {
        Operator::Arithmetic(_) => Sort::Wrong(states::KIND),
        Operator::Relation(_) | Operator::Logic(_) => Sort::Of(Kind::Truth),
        Operator::Join => Sort::Wrong(states::UNFOLDED),
    }
}

// Where a state stands beside the operator; the state of `&` may be smaller.
fn wrong_sort(op: Operator, s: u8) -> Sort
    ensures { result ≡ wrong_sort op s }
{
    match op {
        Operator::Arithmetic(_) | Operator::Relation(_) | Operator::Logic(_) => Sort::Wrong(s),
        Operator::Join => Sort::Wrong(s.min(states::UNFOLDED)),
    }
}

fn sort_beside_number(op: Operator, l: Kind) -> Sort
    ensures { result ≡ beside_integer op l }
{
    match l {
        Kind::Integer => number_sort(op),
        Kind::Truth => wrong_sort(op, states::KIND),
    }
}

fn sort_beside_boolean(op: Operator, l: Kind) -> Sort
    ensures { result ≡ beside_boolean op l }
{
    match l {
        Kind::Integer => wrong_sort(op, states::KIND),
        Kind::Truth => boolean_sort(op),
    }
}

// What an operator makes of two kinds.
fn kinds_sort(op: Operator, k: Kind, l: Kind) -> Sort
    ensures { result ≡ kinds_sort op k l }
{
    match k {
        Kind::Integer => sort_beside_number(op, l),
        Kind::Truth => sort_beside_boolean(op, l),
    }
}

fn sort_beside_kind(op: Operator, k: Kind, y: Sort) -> Sort
    ensures { result ≡ operator_sort op (Sort.Of k) y }
{
    match y {
        Sort::Of(l) => kinds_sort(op, k, l),
        Sort::Wrong(t) => wrong_sort(op, t),
    }
}

fn sort_beside_wrong(op: Operator, s: u8, y: Sort) -> Sort
    ensures { result ≡ operator_sort op (Sort.Wrong s) y }
{
    match y {
        Sort::Of(_) => wrong_sort(op, s),
        Sort::Wrong(t) => wrong_sort(op, s.min(t)),
    }
}

pub fn sorted(op: Operator, x: Sort, y: Sort) -> Sort
    ensures { result ≡ operator_sort op x y }
{
    match x {
        Sort::Of(k) => sort_beside_kind(op, k, y),
        Sort::Wrong(s) => sort_beside_wrong(op, s, y),
    }
}

fn number_signed(op: Sign) -> Sort
    ensures { result ≡ integer_signed op }
{
    match op {
        Sign::Plus | Sign::Minus | Sign::Absolute => Sort::Of(Kind::Integer),
        Sign::Not => Sort::Wrong(states::KIND),
    }
}

fn boolean_signed(op: Sign) -> Sort
    ensures { result ≡ boolean_signed op }
{
    match op {
        Sign::Plus | Sign::Minus | Sign::Absolute => Sort::Wrong(states::KIND),
        Sign::Not => Sort::Of(Kind::Truth),
    }
}

// What a sign, `abs` or `not` makes of a kind.
fn kind_signed(op: Sign, k: Kind) -> Sort
    ensures { result ≡ kind_signed op k }
{
    match k {
        Kind::Integer => number_signed(op),
        Kind::Truth => boolean_signed(op),
    }
}

fn sign_sort(op: Sign, x: Sort) -> Sort
    ensures { result ≡ sign_sort op x }
{
    match x {
        Sort::Of(k) => kind_signed(op, k),
        Sort::Wrong(s) => Sort::Wrong(s),
    }
}

// The outcome of a binary operator: both sides' states are looked at, whatever a short circuit skips.
pub fn combined(op: Operator, x: Outcome, y: Outcome) -> Outcome
    ensures { result ≡ combined_of op x y }
{
    Outcome {
        sort: sorted(op, x.sort, y.sort),
        folded: binary(op, x.folded, y.folded),
    }
}

// The outcome of a sign, `abs` or `not`.
pub fn signed(op: Sign, x: Outcome) -> Outcome
    ensures { result ≡ signed_of op x }
{
    Outcome {
        sort: sign_sort(op, x.sort),
        folded: unary(op, x.folded),
    }
}

// The folded result of a whole expression: a state of the sort stops it before one of the value.
pub fn settled(x: Outcome) -> Folded
    ensures { result ≡ settled_of x }
{
    match x.sort {
        Sort::Of(_) => x.folded,
        Sort::Wrong(s) => Folded::Stopped(s),
    }
}
