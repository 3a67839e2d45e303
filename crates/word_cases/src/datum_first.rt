ghost use Rattle.word_cases.specs.Links.{HasDataFirst};
ghost use Rattle.word_cases.specs.Laws.{nothing_linked, beginning_linked};

use link_cells::Discipline;

/// The layout's first number is that of the rows. Word r is the datum of row r, and the words after these are
/// the links of the rows. A link is set only once the datum of its row is.
#[derive(Drop)]
pub struct DatumFirst;

impl Discipline for DatumFirst {
    ghost keeps = { λ layout log. HasDataFirst layout.first log };

    ghost empty = { λ layout. nothing_linked layout.first };

    ghost beginning = { λ layout before log. beginning_linked layout.first before log };
}
