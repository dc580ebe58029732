// The leaves of `generator`: its word, and of `whole` the two ends. A draw's value, how many words were drawn and the
// generator's next word.
use crate::reply::{Reply, Results, exactly, put};
use generator::Generator;

pub(crate) fn next(args: &[u64], results: &mut Results) -> Reply {
    let [word]: [u64; 1] = exactly(args)?;
    let mut g = Generator { word };
    let d = generator::next_word(&mut g)?;
    put([d.value, d.drawn, g.word], results)
}

pub(crate) fn unit(args: &[u64], results: &mut Results) -> Reply {
    let [word]: [u64; 1] = exactly(args)?;
    let mut g = Generator { word };
    let d = generator::unit_float(&mut g)?;
    put([arith::word_of_float(d.value), d.drawn, g.word], results)
}

pub(crate) fn whole(args: &[u64], results: &mut Results) -> Reply {
    let [word, low, high]: [u64; 3] = exactly(args)?;
    let mut g = Generator { word };
    let d = generator::whole_number(&mut g, arith::int_of_word(low), arith::int_of_word(high))?;
    put([arith::word_of_int(d.value), d.drawn, g.word], results)
}
