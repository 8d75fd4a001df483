//! The report of a search that finds no wrong list of moves.
#![tactic(auto, unfolding(crate::specs::OrderTexts::orders_line, crate::specs::OrderTexts::search_counts_text, crate::specs::OrderTexts::too_many_line))]

ghost use Rattle.std.specs.Prelude.{◌≡◌, ◌+◌, ◌≤◌, ◌++◌, length};
ghost use Rattle.texts.specs.Room.{page_room};
ghost use Rattle.cli_files.specs.declared.status.Status.TheVariants.{Done as Carried, TooMany as OverFull};
ghost use Rattle.cli_orders.specs.OrderTexts.{DoEnd, search_counts_text, orders_line, too_many_line};
ghost use Rattle.order_graph.specs.OrderAnswers.{states_of};

use cli_files::{Answer, Status};
use order_graph::OrdersReached;
use order_search::Orders;
use texts::Page;

/// Appends how many lists of moves there are.
fn push_orders(page: &mut Page, orders: Orders)
    requires room { length page.old + 60 ≤ page_room }
    requires end { DoEnd orders }
    ensures { page.new ≡ page.old ++ orders_line orders }
{
    match orders {
        Orders::Exactly(count) => page.push_counted(b"orders ", count),
        Orders::More => page.push_line(b"orders more than 18446744073709551615"),
        Orders::Endless => unreachable!(),
    }
}

/// How many states were reached, how many moves lead on from them, how many states have none, and how many lists of
/// moves lead to these.
fn counts_page(states: u64, moves: u64, ends: u64, orders: Orders) -> Page
    requires { DoEnd orders }
    ensures { result ≡ search_counts_text states moves ends orders }
{
    let mut page = Page::new();
    page.push_counted(b"states ", states);
    page.push_counted(b"moves ", moves);
    page.push_counted(b"ends ", ends);
    push_orders(&mut page, orders);
    page
}

/// The answer that counts what was reached.
pub(crate) fn counted(reached: &OrdersReached) -> Answer
    requires { DoEnd reached.now.reached.orders }
    ensures status { result.status ≡ Carried }
    ensures closing { result.closing ≡ search_counts_text (length (states_of reached.now)) reached.now.reached.edges reached.now.reached.ends
        reached.now.reached.orders }
{
    Answer {
        status: Status::Done,
        closing: counts_page(
            reached.states() as u64,
            reached.moves(),
            u64::from(reached.ends()),
            reached.orders(),
        ),
    }
}

/// The line that says that more states are reached than are allowed.
fn too_many_page(most: u32) -> Page
    ensures { result ≡ too_many_line most }
{
    let mut page = Page::new();
    page.push(b"more than ");
    page.push_decimal(u64::from(most));
    page.push(b" states\n");
    page
}

/// The answer that says so.
pub(crate) fn too_many(most: u32) -> Answer
    ensures status { result.status ≡ OverFull most }
    ensures closing { result.closing ≡ too_many_line most }
{
    Answer {
        status: Status::TooMany(most),
        closing: too_many_page(most),
    }
}
