// Lines of words.
ghost use Rattle.std.specs.Prelude.{◌≡◌, ◌+◌, ◌*◌, ◌≤◌, length};
ghost use Rattle.propose_lines.specs.Lines.{spaced_of};
ghost use Rattle.propose_lines.specs.Stored.{WordsStored, room_for, WordsRead};

// Whether a space stands between each two of k words.
fn is_spaced(line: &[u8], k: usize) -> bool
    requires { (1 ≤ k) × (length line.now + 1 ≡ 17 * k) }
    ensures { result ≡ spaced_of k line.now }
{
    (0..k - 1).all(|i| line[17 * i + 16] == b' ')
}

// Reads the words that stand at every 17th byte into out, from `at` on.
// Kept: out and `at`, here and below, since a history's rows go into one lent array (document 01: fixed memory); and a
// bool, since a line that breaks off leaves the words before in the array, and the definition says so.
#[tactic(auto, using(crate::proofs::Stored::storing), unfolding(arith::specs::Lists::every))]
fn store_words(line: &[u8], k: usize, out: &mut [u64], at: usize) -> bool
    requires { (length line.now + 1 ≡ 17 * k) × (at + k ≤ length out.old) }
    ensures { WordsStored line.now k at out.old out.new result }
{
    for i in 0..k {
        let start = 17 * i;
        let Some(w) = word_text::parse(&line[start..start + 16]) else {
            return false;
        };
        out[at + i] = w;
    }
    true
}

// Whether k words, 1 to 163 of them, find room in an array of that many places from `at` on.
fn has_room(k: usize, at: usize, places: usize) -> bool
    ensures { result ≡ room_for k at places }
{
    (1..=163).contains(&k) && k <= places && at <= places - k
}

// Whether a line is k words, and they, from `at` on. What stands before `at` stays. Where there is no room for k words,
// or for none or over 163: false, and all stays.
#[tactic(auto, unfolding(crate::specs::Lines::is_words))]
pub fn read_words(line: &[u8], k: usize, out: &mut [u64], at: usize) -> bool
    ensures { WordsRead line.now k at out.old out.new result }
{
    let places = out.len();
    if !has_room(k, at, places) || line.len() != 17 * k - 1 || !is_spaced(line, k) {
        return false;
    }
    store_words(line, k, out, at)
}
