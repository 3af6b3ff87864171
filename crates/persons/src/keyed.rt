use kom_types::PersonRow;
use row_table::Keyed;

/// Persons, each found by its number.
#[derive(Drop)]
pub(crate) struct ByNumber;

impl Keyed for ByNumber {
    ghost use Rattle.kom_types.specs.tables.Persons.{number_of_person};

    type Row = PersonRow;

    ghost number_of = { number_of_person };

    fn number_of(row: &PersonRow) -> u32 {
        row.number
    }
}
