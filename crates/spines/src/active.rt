// A line of a part, as the table of active spines has it, and its cell.
ghost use Rattle.std.specs.Prelude.{◌+◌, ◌*◌, ◌<◌, ◌^◌};

// A line of a part, with its voice, that has a cell. In a table that `fill_table` filled each voice is one of a line's four (`table_low`).
#[derive(Clone, Copy, Debug, PartialEq, Eq)]
pub struct Line {
    pub part: u16,
    pub voice: u8,
    pub ghost room: { (part + 1) * 8 + voice < 2 ^ 16 },
}

impl From<Line> for u16 {
    ghost use Rattle.std.specs.Prelude.{◌≡◌, Some};
    ghost use Rattle.spines.specs.Table.{cell_of};

    ghost from_gives = { λ l c. c ≡ cell_of (Some l) };

    // The cell of a line, as `spine_of` reads it where the voice is one of a line's four.
    #[tactic(auto, unfolding(crate::specs::Table::cell_of))]
    fn from(line: Line) -> u16 {
        (line.part + 1) * 8 + u16::from(line.voice)
    }
}
