#![tactic(auto)]

// Voices for the branches of a row, and what a star record makes of the row.
ghost use Rattle.std.specs.Prelude.{◌≡◌, min, ◌*◌, ◌/◌, ◌%◌, ◌+◌, ◌≤◌, ◌<◌, length, take, replicate};
ghost use Rattle.paths.specs.Voices.{holds, lowest, voice_row, narrow, step_row};
ghost use Rattle.spines.specs.Cells.{spine_of, row_of, is_branch};
ghost use Rattle.spines.specs.Tokens.{record_tokens};
ghost use Rattle.voices.specs.Mask.{bit, WithVoice, voice_of, Cleared, Account};
ghost use Rattle.voices.specs.Outcome.{given_of, outcome_of, active_after};

use paths::Spine;

// Whether a voice is held.
// Stays: a rule of the project: a mask for each part, set and tested by shifts; the lowest clear bit is the voice (docs/DECISIONS.md).
fn taken(mask: u8, voice: u8) -> bool
    requires { voice < 4 }
    ensures { result ≡ bit mask voice }
{
    (mask >> voice) & 1 == 1
}

// The mask with a voice.
fn with_voice(mask: u8, voice: u8) -> u8
    requires { voice < 4 }
    ensures { WithVoice mask voice result }
{
    mask | (1u8 << voice)
}

// The lowest voice that isn't held.
fn lowest_free(mask: u8) -> Option<u8>
    ensures { voice_of result ≡ lowest (bit mask) }
{
    (0..4).find(|voice| !taken(mask, *voice))
}

// Where the mask of a cell's part stands.
// Stays: fixed memory, as at `spines::spine_of`: the masks stand by the cell's own number of its part.
fn place(cell: u16) -> usize
    ensures { (result ≡ cell / 8) × (result < 8192) }
{
    usize::from(cell / 8)
}

// The cell of a branch that has got its voice.
fn voiced(cell: u16, voice: u8) -> u16
    requires { voice < 4 }
    ensures { result ≡ cell / 8 * 8 + voice }
{
    cell / 8 * 8 + u16::from(voice)
}

// Whether a cell is a branch that still needs a voice.
fn is_branch(cell: u16) -> bool
    ensures { result ≡ is_branch (spine_of cell) }
{
    matches!(spines::spine_of(cell), Spine::Branch { .. })
}

// Clears the masks of a row's parts.
fn clear(cells: &[u16], masks: &mut [u8; 8192])
    ensures { Cleared cells.now masks.new }
{
    for cell in cells {
        masks[place(*cell)] = 0;
    }
}

// Sets the voices of a row's lines in masks that are clear.
fn mark(cells: &[u16], masks: &mut [u8; 8192])
    requires { Cleared cells.now masks.old }
    ensures { Account cells.now masks.new (holds (row_of cells.now)) }
{
    for cell in cells {
        if let Spine::Line { voice, .. } = spines::spine_of(*cell) {
            let q = place(*cell);
            masks[q] = with_voice(masks[q], voice as u8);
        }
    }
}

// Why a star record stops the reading: question 17 with a column, question 8 with a part, or question 9 with a count.
#[derive(Clone, Copy, Debug, PartialEq, Eq)]
pub enum Stop {
    Mixed(usize),
    Voiceless(u16),
    Wide(usize),
}

// Gives the branches their voices, left to right: the masks tell the lines' voices. The first that finds none stops it.
fn give(cells: &mut [u16], masks: &mut [u8; 8192]) -> Result<(), Stop>
    requires { Account cells.old masks.old (holds (row_of cells.old)) }
    ensures { given_of result cells.new ≡ voice_row (row_of cells.old) }
{
    for cell in cells.iter_mut() {
        if is_branch(*cell) {
            let q = place(*cell);
            match lowest_free(masks[q]) {
                Some(voice) => {
                    *cell = voiced(*cell, voice);
                    masks[q] = with_voice(masks[q], voice);
                }
                None => return Err(Stop::Voiceless(*cell / 8 - 1)),
            }
        }
    }
    Ok(())
}

// Voices for the next row in `cells`, then question 9; the row is taken over where it passes: how many spines are active then.
fn settle(row: &mut [u16; 512], cells: &mut [u16], masks: &mut [u8; 8192]) -> Result<usize, Stop>
    ensures outcome { outcome_of result row.new ≡ narrow (voice_row (row_of cells.old)) }
    ensures few { active_after result ≤ 256 }
    ensures room { length row.new ≡ 512 }
{
    let count = cells.len();
    clear(cells, masks);
    mark(cells, masks);
    give(cells, masks)?;
    if count > 256 {
        return Err(Stop::Wide(count));
    }
    // Stays: cell by cell, and no `copy_from_slice`: the library for C needs no memmove for it.
    for (i, cell) in cells.iter().enumerate() {
        row[i] = *cell;
    }
    Ok(count)
}

// The row of spines in cells, and what a star record is lent beside it: room for the next row, and a mask of held voices for each part.
// The next row stands first, so that the copy to the row is a loop of its own and no call.
#[derive(Drop)]
pub struct Rows {
    pub next: [u16; 512],
    pub row: [u16; 512],
    pub masks: [u8; 8192],
    pub ghost room: { length row ≡ 512 },
}

impl Rows {
    // Before any record: no cell is a part's.
    pub fn empty() -> Rows
        ensures { (result.row ≡ replicate 512 0) × ((result.next ≡ replicate 512 0) × (result.masks ≡ replicate 8192 0)) }
    {
        Rows {
            row: [0; 512],
            next: [0; 512],
            masks: [0; 8192],
        }
    }

    // One star record: question 17, then the next row of the first `active` cells, at most 256, with its voices, over the old one: how many
    // spines are active then.
    pub fn step(&mut self, line: &[u8], active: usize) -> Result<usize, Stop>
        ensures outcome { outcome_of result self.new.row ≡ step_row (row_of (take (min active 256) self.old.row)) (record_tokens (min active 256) line.now) }
        ensures few { active_after result ≤ 256 }
    {
        if let Some(column) = spines::mixed_run(line, &self.row, active) {
            return Err(Stop::Mixed(column));
        }
        let count = spines::next_row(line, &self.row, active, &mut self.next);
        let cells = &mut self.next[..];
        settle(&mut self.row, &mut cells[..count], &mut self.masks)
    }
}
