// Edges and phases in columns, as callers lend them.
ghost use Rattle.std.specs.Prelude.{length};
ghost use Rattle.contention.specs.Columns.{Sized};

// Edges in columns: source, target and words of each.
#[derive(Clone, Copy)]
pub struct EdgeColumns<'a> {
    pub sources: &'a [u8],
    pub targets: &'a [u8],
    pub amounts: &'a [u16],
}

// Phases in columns, phase x at index x (2i the read of task i, 2i + 1 its write): core, window [start, end) and words.
// There are as many as `core` has; the other columns may be longer. That words are at most `most_words` is asked where delays are:
// a bus run takes any.
#[derive(Clone, Copy)]
pub struct PhaseColumns<'a> {
    pub core: &'a [u32],
    pub start: &'a [u32],
    pub end: &'a [u32],
    pub words: &'a [u32],
    pub ghost sized: { Sized core.now start.now end.now words.now (length core.now) },
}
