// Distributions and values: the shape test, equality, and the Taken rule. The names are the Rust's.
#![tactic(auto)]

ghost use Rattle.std.specs.Prelude.{◌≡◌};
ghost use Rattle.distribution.specs.Value.{kind_of, word_of};

pub mod equality;
mod limits;
pub mod range;
pub mod shape;
pub mod taken;

pub use equality::equal;
pub use shape::well_formed;
pub use taken::{taken_rule, taken_value, value_of_word};

// A parameter of floats or of integers, with a step where it has one.
#[derive(Clone, Copy, PartialEq)]
pub struct NumberDistribution<T> {
    pub low: T,
    pub high: T,
    pub log_scale: bool,
    pub step: Option<T>,
}

pub type FloatDistribution = NumberDistribution<f64>;

pub type IntDistribution = NumberDistribution<i64>;

// A choice among n_choices.
#[derive(Clone, Copy, PartialEq)]
pub struct CategoricalDistribution {
    pub n_choices: u64,
}

#[derive(Clone, Copy, PartialEq)]
pub enum Distribution {
    Float(FloatDistribution),
    Int(IntDistribution),
    Categorical(CategoricalDistribution),
}

// A value of a parameter.
#[derive(Clone, Copy)]
pub enum ParamValue {
    Float(f64),
    Int(i64),
    Categorical(u64),
}

// The kind of a value: 1 float, 2 int, 3 choice.
pub fn kind(v: ParamValue) -> u64
    ensures { result ≡ kind_of v }
{
    match v {
        ParamValue::Float(_) => 1,
        ParamValue::Int(_) => 2,
        ParamValue::Categorical(_) => 3,
    }
}

// The word of a value.
pub fn word(v: ParamValue) -> u64
    ensures { result ≡ word_of v }
{
    match v {
        ParamValue::Float(x) => arith::word_of_float(x),
        ParamValue::Int(z) => arith::word_of_int(z),
        ParamValue::Categorical(i) => i,
    }
}
