// Reading the fields of a table: any rules, then any definitions.
ghost use Rattle.std.specs.Prelude.{◌≡◌, ◌+◌, ◌≤◌, length};
ghost use Rattle.words.specs.Kept.{Kept};
ghost use Rattle.reading.specs.Waiting.{reading_room};
ghost use Rattle.tables.specs.ReadTables.{read_fields};
ghost use Rattle.tables.specs.Shapes.{table_shape, table_counted};

use format::refusals::Refusal;
use parts::begin_table;
use parts::state::State;
use reading::read_on;

// What reading a table finds: the numbers of rules and of definitions, and the place of the first definition, where the rules end.
#[derive(Clone, Copy)]
pub struct TableParts {
    pub rules: usize,
    pub definitions: usize,
    pub first: usize,
}

impl From<State> for TableParts {
    ghost from_gives = { λ x p. p ≡ table_counted x };

    fn from(x: State) -> TableParts {
        TableParts {
            rules: x.first,
            definitions: x.second,
            first: x.from,
        }
    }
}

// All fields of a table, from the first on. While the body of a definition is read its fields wait in work, from base on.
pub fn read_fields(s: &[u8], work: &mut [u8], base: usize) -> Result<TableParts, Refusal>
    requires { base + reading_room ≤ length work.old }
    ensures value { result ≡ table_shape (read_fields (length s.now + 1) s.now 0 0 0 0) }
    ensures kept { Kept work.old work.new base (base + reading_room) }
{
    read_on(s, begin_table(s), work, base).told()
}
