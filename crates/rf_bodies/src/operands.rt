ghost use Rattle.std.specs.Prelude.{◌≡◌, ◌<◌, length};
ghost use Rattle.rf_pairs.specs.Places.{NOWHERE};
ghost use Rattle.rf_bodies.specs.Lowered.{Stands};

use crate::bodies::Operand;
use crate::words::{access_of, property_of, text_of};
use rf_facts::PropTable;
use rf_pairs::place_of;
use rf_rtree::RTerm;
use rf_text::Bytes;

/// A term with a place for its variable and a number for each other word.
pub fn operand(table: &PropTable, names: &[Bytes], term: &RTerm) -> Operand
    requires { length names.now < NOWHERE }
    ensures { Stands table.now names.now term.now result }
{
    match term {
        RTerm::Prop { elem, prop } => Operand::Now {
            place: place_of(names, elem.text.as_slice()),
            prop: property_of(prop.text.as_slice()),
        },
        RTerm::Old {
            line: _,
            elem,
            prop,
        } => Operand::Old {
            place: place_of(names, elem.text.as_slice()),
            prop: property_of(prop.text.as_slice()),
        },
        RTerm::Var(word) => Operand::Element(place_of(names, word.text.as_slice())),
        RTerm::Access(word) => Operand::Fixed(access_of(word.text.as_slice())),
        RTerm::Text(word) => Operand::Fixed(text_of(table, word.text.as_slice())),
    }
}
