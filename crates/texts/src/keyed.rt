use kom_types::TextRow;
use row_table::Keyed;

/// Texts, each found by its number.
#[derive(Drop)]
pub(crate) struct ByNumber;

impl Keyed for ByNumber {
    ghost use Rattle.kom_types.specs.tables.Texts.{number_of_text};

    type Row = TextRow;

    ghost number_of = { number_of_text };

    fn number_of(row: &TextRow) -> u32 {
        row.number
    }
}
