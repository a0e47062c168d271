// The calls and the names of a PBN record as it is lent. (01: From PBN, "Input")
ghost use Rattle.std.specs.Prelude.{◌≡◌};
ghost use Rattle.lin_spec.specs.Pbn.{pbn_names, pbn_row};
ghost use Rattle.board_lent.specs.Calls.{of_row};

use lin_spec::{PbnBoard, PbnCall, Span};

// The call of a row.
pub fn pbn_call_of(row: [u32; 6]) -> PbnCall
    ensures { result ≡ of_row pbn_row row }
{
    let [kind, level, strain, annotated, start, len] = row;
    PbnCall {
        kind,
        level,
        strain,
        annotated,
        annotation: Span { start, len },
    }
}

// The names of a record.
pub fn pbn_names(board: PbnBoard) -> [Option<Span>; 4]
    ensures { result ≡ pbn_names board }
{
    let south = board.south;
    let west = board.west;
    let north = board.north;
    let east = board.east;
    [south, west, north, east]
}
