// Round: the next tableau of a sheet, or the prices of a finished one.
#![tactic(auto)]

ghost use Rattle.std.specs.Prelude.{◌≡◌, List};
ghost use Rattle.transport.specs.Sheet.{sheet_of};
ghost use Rattle.transport.specs.declared.Cell.{Cell};
ghost use Rattle.transport.specs.OwnNumbers.{roastery_prices, cafe_prices};
ghost use Rattle.transport.specs.Calls.{finished, round_call};
ghost use Rattle.transport.specs.Answers.{round_answer, round_shown};
ghost use Rattle.price_lists.specs.Prices.{NodesPriced};

use board::Board;
use board::gather::gather;
use loading::load_sheet;
use numbering::own_tableau;
use price_lists::write_prices;
use rounds::round::make_round;
use transport::{MAX_SIDE, Refusal, RoundAnswer, Tableau};
use tree::{LANES, NODES, Price};

// The answer for a finished tableau: the prices of all parties. `rows` and `cols` have the own
// numbers of those left, whose prices are given.
fn finished_round(
    supply: &[u64],
    demand: &[u64],
    cost: &[i64],
    rows: &[usize],
    cols: &[usize],
    price: &[Price; NODES],
) -> RoundAnswer
    requires { (T : List Cell) × NodesPriced (sheet_of supply.now demand.now cost.now) T rows.now cols.now price.now }
    ensures { let S = sheet_of supply.now demand.now cost.now in
        ((T : List Cell) → NodesPriced S T rows.now cols.now price.now
        → result ≡ round_shown (finished (roastery_prices S T) (cafe_prices S T))) }
{
    let mut u = [0; MAX_SIDE];
    let mut v = [0; MAX_SIDE];
    write_prices(supply, demand, cost, rows, cols, price, &mut u, &mut v);
    RoundAnswer::Finished { u, v }
}

// Round: the next tableau, or the prices of this one if it is finished. It refuses what the sheet
// check refuses, and a tableau that does not belong.
pub fn round(
    supply: &[u64],
    demand: &[u64],
    cost: &[i64],
    t: Tableau,
) -> Result<RoundAnswer, Refusal>
    ensures { let S = sheet_of supply.now demand.now cost.now in
        result ≡ round_answer (round_call S t) }
{
    let mut board = Board::new();
    let mut spread = [0; LANES];
    let parties = load_sheet(supply, demand, cost, t, &mut board, &mut spread)?;
    let rows = parties.row_numbers();
    let columns = parties.column_numbers();
    let mut price = [0; NODES];
    let finished = make_round(
        &mut board,
        &spread,
        parties.rows,
        parties.columns,
        &mut price,
    );
    if finished {
        return Ok(finished_round(supply, demand, cost, rows, columns, &price));
    }
    let next = gather(&board, parties.rows, parties.columns);
    let own = own_tableau(next, rows, columns);
    Ok(RoundAnswer::Moved(own))
}
