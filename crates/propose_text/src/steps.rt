// One line after the other.
ghost use Rattle.std.specs.Prelude.{◌≡◌, cond, List, ℕ};
ghost use Rattle.propose_text.specs.Array.{row_stored, history_stored, array_of};
ghost use Rattle.refusal.specs.declared.Refusal.{Refusal};
ghost use Rattle.text_laws.specs.Steps.{Reading, reading_of, stepped_of, awaits, ends, named, start_of, step_of};
ghost use Rattle.text_laws.specs.Steps.{settings_of, settings_line, history_named, history_line, row_line, call_line};
ghost use Rattle.text_laws.specs.Steps.{sampled_of, value_line, told_line, answered_of, finish_at, finish_of};
ghost use Rattle.text_laws.specs.declared.Event.{Event};
ghost use Rattle.text_laws.specs.declared.Stage.{Stage};

use distribution::ParamValue;
use distribution_words::Words;
use refusal::Refusal;
use sampler_laws::{Answer, Sampled};
use settings::Settings;
use slots::{ROW_HEAD, SLOT_WORDS};
use text_laws::{Event, Reader, Stage, Step};

// Another line is awaited, and nothing is written.
fn awaiting(stage: Stage, event: Event, r: Reader) -> Step
    ensures { (h : List ℕ) → stepped_of result h ≡ awaits stage event (reading_of r h) }
{
    Step {
        reader: Reader {
            stage,
            sampler: r.sampler,
            count: r.count,
        },
        event,
        line: None,
    }
}

// The run ends with a refusal.
pub(crate) fn ending(refusal: Refusal, r: Reader) -> Step
    ensures { (h : List ℕ) → stepped_of result h ≡ ends refusal (reading_of r h) }
{
    Step {
        reader: Reader {
            stage: Stage::Ended,
            sampler: r.sampler,
            count: r.count,
        },
        event: Event::Refused(refusal),
        line: Some(propose_lines::answer_line(0, 0, refusal.number(), 0)),
    }
}

// A names line, as it should be or not.
fn after_names(ok: bool, stage: Stage, r: Reader) -> Step
    ensures { (h : List ℕ) → stepped_of result h ≡ named ok stage (reading_of r h) }
{
    if ok {
        return awaiting(stage, Event::Names, r);
    }
    ending(Refusal::Text, r)
}

// Settings with each of the five set to a word.
fn set_all(s: Settings, words: [u64; 5]) -> Settings
    ensures { result ≡ settings_of words }
{
    s.n_startup_trials(words[0])
        .n_candidates(words[1])
        .noise_variance(arith::float_of_word(words[2]))
        .seed(words[3])
        .slots(words[4])
}

// The line of the settings: a sampler is made of them.
#[tactic(auto, unfolding(text_laws::specs::Steps::settings_line))]
fn settings_line(r: Reader, line: &[u8]) -> Step
    ensures { (h : List ℕ) → stepped_of result h ≡ settings_line (reading_of r h) line.now }
{
    let mut words = [0u64; 5];
    if !propose_lines::read_words(line, 5, &mut words, 0) {
        return ending(Refusal::Text, r);
    }
    match sampler_state::build(set_all(r.sampler.settings, words)) {
        Ok(sampler) => {
            let made = Reader {
                stage: r.stage,
                sampler,
                count: r.count,
            };
            awaiting(Stage::HistoryNames, Event::Settings, made)
        }
        Err(refusal) => ending(refusal, r),
    }
}

// Whether a line has the history's names for the sampler.
fn has_history_names(r: &Reader, line: &[u8]) -> bool
    ensures { result ≡ history_named r.now.sampler line.now }
{
    let slots = r.sampler.settings.slots;
    slots <= 20 && propose_lines::is_history(line, slots)
}

// A row: its words go behind those that are there, as long as the array has room for them.
#[tactic(auto, unfolding(text_laws::specs::Steps::row_line))]
fn row_line(r: Reader, line: &[u8], history: &mut [u64; 8192]) -> Step
    ensures step { stepped_of result history.new ≡ row_line (reading_of r history.old) line.now }
    ensures array { history.new ≡ row_stored (reading_of r history.old) line.now history.old }
{
    let slots = r.sampler.settings.slots;
    if slots > 20 {
        return ending(Refusal::Text, r);
    }
    let k = ROW_HEAD + SLOT_WORDS * slots as usize;
    if !propose_lines::read_words(line, k, history, r.count) {
        return ending(Refusal::Text, r);
    }
    let more = Reader {
        stage: r.stage,
        sampler: r.sampler,
        count: r.count + k,
    };
    awaiting(Stage::History, Event::Row, more)
}

// A row, or the names of the calls.
#[tactic(auto, unfolding(text_laws::specs::Steps::history_line))]
fn history_line(r: Reader, line: &[u8], history: &mut [u64; 8192]) -> Step
    ensures step { stepped_of result history.new ≡ history_line (reading_of r history.old) line.now }
    ensures array { history.new ≡ history_stored (reading_of r history.old) line.now history.old }
{
    if propose_lines::is_calls(line) {
        return awaiting(Stage::Calls, Event::CallsBegin, r);
    }
    row_line(r, line, history)
}

// The line of an accepted call.
fn value_line(trial: u64, value: Option<ParamValue>, drawn: u64) -> [u8; 68]
    ensures { result ≡ value_line trial value drawn }
{
    match value {
        Some(v) => {
            propose_lines::answer_line(trial, distribution::kind(v), distribution::word(v), drawn)
        }
        None => propose_lines::answer_line(trial, 0, 0, drawn),
    }
}

// The line of an answer.
fn told_line(trial: u64, answer: Result<Answer, Refusal>) -> [u8; 68]
    ensures { result ≡ told_line trial answer }
{
    match answer {
        Ok(a) => value_line(trial, a.value, a.drawn),
        Err(refusal) => propose_lines::answer_line(trial, 0, refusal.number(), 0),
    }
}

// An answer's line, and the sampler that it handed back.
fn answered(trial: u64, a: Sampled, r: &Reader) -> Step
    ensures { (h : List ℕ) → stepped_of result h ≡ answered_of trial a (reading_of r.now h) }
{
    Step {
        reader: Reader {
            stage: Stage::Calls,
            sampler: a.sampler,
            count: r.count,
        },
        event: Event::Call(trial),
        line: Some(told_line(trial, a.answer)),
    }
}

// What the sampler answers to the seven words of a call.
fn called(r: &Reader, words: [u64; 7], history: &[u64; 8192]) -> Sampled
    ensures { result ≡ sampled_of (reading_of r.now history.now) words }
{
    sampler::sample(
        r.sampler,
        Words {
            kind: words[1],
            low: words[2],
            high: words[3],
            log: words[4],
            stepped: words[5],
            step: words[6],
        },
        words[0],
        &history[..r.count],
    )
}

// A call on the sampler.
#[tactic(auto, unfolding(text_laws::specs::Steps::call_line))]
fn call_line(r: Reader, line: &[u8], history: &[u64; 8192]) -> Step
    ensures { stepped_of result history.now ≡ call_line (reading_of r history.now) line.now }
{
    let mut words = [0u64; 7];
    if !propose_lines::read_words(line, 7, &mut words, 0) {
        return ending(Refusal::Text, r);
    }
    let a = called(&r, words, history);
    answered(words[0], a, &r)
}

// A reader at the start of the input: the defaults, and no seed.
#[tactic(auto, unfolding(text_laws::specs::Steps::start_of))]
pub(crate) fn start() -> Reader
    ensures { (h : List ℕ) → reading_of result h ≡ start_of }
{
    Reader {
        stage: Stage::SettingsNames,
        sampler: sampler_state::fresh(Settings::new(0)),
        count: 0,
    }
}

// One line of the input, without its newline. The array holds the history from row to row.
#[tactic(auto, unfolding(text_laws::specs::Steps::step_of))]
pub(crate) fn read_line(r: Reader, line: &[u8], history: &mut [u64; 8192]) -> Step
    ensures step { stepped_of result history.new ≡ step_of (reading_of r history.old) line.now }
    ensures array { history.new ≡ array_of (reading_of r history.old) line.now history.old }
{
    match r.stage {
        Stage::SettingsNames => after_names(propose_lines::is_settings(line), Stage::Settings, r),
        Stage::Settings => settings_line(r, line),
        Stage::HistoryNames => after_names(has_history_names(&r, line), Stage::History, r),
        Stage::History => history_line(r, line, history),
        Stage::Calls => call_line(r, line, history),
        Stage::Ended => awaiting(Stage::Ended, Event::Nothing, r),
    }
}

// Whether a text may end where this line is awaited, with what stands after its last newline.
fn may_end(stage: Stage, rest: &[u8]) -> bool
    ensures { (r : Reading) →
        finish_at stage r rest.now ≡ cond result (awaits Stage.Ended Event.Nothing r) (ends Refusal.Text r) }
{
    match stage {
        Stage::Calls => rest.is_empty(),
        Stage::Ended => true,
        _ => false,
    }
}

// The end of the input, with what stands after its last newline.
#[tactic(auto, unfolding(text_laws::specs::Steps::finish_of))]
pub(crate) fn finish(r: Reader, rest: &[u8]) -> Step
    ensures { (h : List ℕ) → stepped_of result h ≡ finish_of (reading_of r h) rest.now }
{
    if may_end(r.stage, rest) {
        return awaiting(Stage::Ended, Event::Nothing, r);
    }
    ending(Refusal::Text, r)
}
