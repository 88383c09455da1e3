ghost use Rattle.std.specs.Prelude.{◌≡◌, ◌<◌};
ghost use Rattle.carol_program.specs.Limits.{most_cells, most_queries};
ghost use Rattle.carol_program.specs.Variables.{query_variable};

// The numbers of the variables of a program's formulas and terms. A cell of the store itself, or of
// the one that was read, has its own number.

/// The variable of the first cell of the global store, in a guard.
pub const FIRST_THERE: u32 = 16;

/// The variable of the first parameter.
pub const FIRST_PARAMETER: u32 = 32;

/// The variable of the result.
pub const RESULT_VARIABLE: u32 = 48;

/// The variable of the first cell of the store that the query in slot 0 took.
pub const FIRST_QUERIED: u32 = 64;

/// How many variables there are for the cells of each store.
pub const STORE_VARIABLES: u32 = 16;

/// The variable of a cell of the store that the query in this slot took.
pub fn query_variable(slot: u32, cell: u32) -> u32
    requires slot { slot < most_queries }
    requires cell { cell < most_cells }
    ensures { result ≡ query_variable slot cell }
{
    FIRST_QUERIED + STORE_VARIABLES * slot + cell
}
