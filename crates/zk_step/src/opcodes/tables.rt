// The opcodes of tables.

ghost use Rattle.zk_state.specs.Frames.{bounds_of};
ghost use Rattle.std.specs.Prelude.{◌≡◌, ◌<◌, ◌^◌, IfOk, IfErr, Ok, Err, MatchResult};
ghost use Rattle.zk_step.specs.Printing.{IsLong, IsPrintable};
ghost use Rattle.zk_step.specs.Tables.{rectangle_of, scan_answer, table_effect};

use crate::state::ending::{Effect, Ending, Output};
use crate::state::game_state::GameState;
use crate::state::values::Values;
use zk_code::opcode::Table;
use zk_mem::fault::Fault;
use zk_tables::arrays::copying::copy_table;
use zk_tables::arrays::rectangle::{Rectangle, check_rectangle};
use zk_tables::arrays::scanning::scan_table;

/// The form of a table that is searched where none is given: words one after the other.
const WORDS: u16 = 0x82;

/// The rectangle that operands name: of one row, unless a height is given, with no bytes skipped, unless it is said how
/// many.
fn rectangle_by(values: &Values) -> Rectangle
    ensures { result ≡ rectangle_of values.now }
{
    Rectangle {
        text: values.first(),
        width: values.second(),
        height: values.get_or(2, 1),
        skip: values.get_or(3, 0),
    }
}

/// The address that was found, or 0, and whether there is one.
fn answer_by(found: Option<u16>) -> Effect
    ensures value { result ≡ scan_answer found }
    ensures silent { result.output ≡ Output.Nothing }
{
    match found {
        Some(address) => Effect::ends(Ending::GoOn(Some(address), Some(true))),
        None => Effect::ends(Ending::GoOn(Some(0), Some(false))),
    }
}

/// The effect of an opcode of tables. A rectangle is tested whole before anything is shown.
#[tactic(auto, unfolding(crate::specs::Tables::table_effect))]
pub fn tables_effect(
    operation: Table,
    game: &mut GameState,
    values: &Values,
) -> Result<Effect, Fault>
    ensures value { MatchResult result
        (λ e. table_effect operation game.old values.now ≡ Ok (game.new, e))
        (λ f. table_effect operation game.old values.now ≡ Err f) }
    ensures ready { IfOk result
        (λ e. IsPrintable game.old.memory game.new.memory e.output e.ending) }
    ensures same { IfOk result (λ e. IsLong e.output → game.new ≡ game.old) }
    ensures bounds { bounds_of game.new.frames ≡ bounds_of game.old.frames }
{
    match operation {
        Table::ScanTable => {
            let form = values.get_or(3, WORDS);
            let found = scan_table(
                &game.memory,
                values.first(),
                values.second(),
                values.third(),
                form,
            )?;
            Ok(answer_by(found))
        }
        Table::CopyTable => {
            copy_table(
                &mut game.memory,
                values.first(),
                values.second(),
                values.third(),
            )?;
            Ok(Effect::goes_on())
        }
        Table::PrintTable => {
            let rectangle = rectangle_by(values);
            check_rectangle(&game.memory, rectangle)?;
            Ok(Effect::prints(Output::Rows(rectangle)))
        }
    }
}
