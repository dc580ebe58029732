// A sampler with a field or two changed, and the answers made of it.
ghost use Rattle.std.specs.Prelude.{◌≡◌, ◌<◌};
ghost use Rattle.distribution.specs.Shape.{shape_of, where_formed};
ghost use Rattle.sampler_laws.specs.Calls.{answered_of, with_word, with_place, activated, with_dimension, drawn_of, written_of};

use distribution::{Distribution, ParamValue};
use refusal::Refusal;
use rng_util::Draw;
use sampler_laws::{Accepted, Answer, Sampled, Serving};
use sampler_state::{Place, Sampler};

// What a call on a sampler answers, and the sampler after it: as it was where the call is refused.
pub(crate) fn answered(s: Sampler, outcome: Result<Accepted, Refusal>) -> Sampled
    ensures { result ≡ answered_of s outcome }
{
    match outcome {
        Ok(accepted) => {
            let sampler = accepted.sampler;
            Sampled {
                answer: Ok(accepted.answer),
                sampler,
            }
        }
        Err(refusal) => Sampled {
            answer: Err(refusal),
            sampler: s,
        },
    }
}

pub(crate) fn with_word(mut s: Sampler, word: u64) -> Sampler
    ensures { result ≡ with_word s word }
{
    s.word = word;
    s
}

pub(crate) fn with_place(mut s: Sampler, i: usize, p: Option<Place>) -> Sampler
    requires { i < 32 }
    ensures { result ≡ with_place s i p }
{
    s.places[i] = p;
    s
}

// Discovery ended.
pub(crate) fn with_discovery_ended(mut s: Sampler) -> Sampler
    ensures { result ≡ activated s }
{
    s.active = true;
    s
}

// One more dimension, for the discovery trial: 11 where its distribution is malformed.
pub(crate) fn with_dimension(
    mut s: Sampler,
    trial: u64,
    d: Distribution,
) -> Result<Sampler, Refusal>
    requires { s.dimensions.count < 20 }
    ensures { result ≡ where_formed (shape_of d) (with_dimension s trial d) }
{
    let k = s.dimensions.count;
    s.discovery_trial_id = trial;
    s.dimensions.list[k] = dimensions::dimension(d)?;
    s.dimensions.count = k + 1;
    Ok(s)
}

// A value, and the sampler with the generator's word after it.
pub(crate) fn with_draw(s: Sampler, draw: Draw<ParamValue>) -> Accepted
    ensures { result ≡ drawn_of s draw }
{
    Accepted {
        answer: Answer {
            value: Some(draw.value),
            drawn: draw.drawn,
        },
        sampler: with_word(s, draw.next),
    }
}

// A serving written back: its place as place i, and its word.
pub(crate) fn written(s: Sampler, i: usize, serving: Serving) -> Accepted
    requires { i < 32 }
    ensures { result ≡ written_of s i serving }
{
    with_draw(with_place(s, i, Some(serving.place)), serving.draw)
}
