// The names lines: those of the input, compared byte by byte, and the one of the output.
ghost use Rattle.std.specs.Prelude.{◌≡◌, [], ◌∷◌, ◌++◌};
ghost use Rattle.propose_lines.specs.Names.{settings_names, slots_names, history_names, call_names, answer_names, same_bytes};

const SETTINGS: &[u8] = b"startup candidates noise seed slots";

const CALLS: &[u8] = b"trial kind low high log stepped step";

const ROW: &[u8] = b"trial state value";

const SLOT: &[u8] = b" id kind low high log stepped step taken";

#[tactic(auto, using(crate::proofs::Bytes::same_pointwise))]
pub fn is_settings(line: &[u8]) -> bool
    ensures { result ≡ same_bytes line.now settings_names }
{
    line == SETTINGS
}

#[tactic(auto, using(crate::proofs::Bytes::same_pointwise))]
pub fn is_calls(line: &[u8]) -> bool
    ensures { result ≡ same_bytes line.now call_names }
{
    line == CALLS
}

// Whether these are the names of n slots.
#[tactic(auto, using(crate::proofs::SlotNames::slot_by_slot), unfolding(crate::specs::Names::slots_names))]
fn is_slots(line: &[u8], n: u64) -> bool
    ensures { result ≡ same_bytes line.now (slots_names n) }
{
    let mut rest = line;
    for _ in 0..n {
        if !rest.starts_with(SLOT) {
            return false;
        }
        rest = &rest[SLOT.len()..];
    }
    rest.is_empty()
}

#[tactic(auto, using(crate::proofs::SlotNames::history_left))]
pub fn is_history(line: &[u8], n: u64) -> bool
    ensures { result ≡ same_bytes line.now (history_names n) }
{
    line.starts_with(ROW) && is_slots(&line[ROW.len()..], n)
}

// The names line of the output, its newline with it.
pub fn names_line() -> [u8; 23]
    ensures { result ≡ answer_names ++ (10 ∷ []) }
{
    *b"trial kind value drawn\n"
}
