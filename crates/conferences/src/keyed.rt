use kom_types::ConferenceRow;
use row_table::Keyed;

/// Conferences, each found by its number.
#[derive(Drop)]
pub(crate) struct ByNumber;

impl Keyed for ByNumber {
    ghost use Rattle.kom_types.specs.tables.Conferences.{number_of_conference};

    type Row = ConferenceRow;

    ghost number_of = { number_of_conference };

    fn number_of(row: &ConferenceRow) -> u32 {
        row.number
    }
}
