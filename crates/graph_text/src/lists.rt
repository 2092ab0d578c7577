// Actions' numbers.
use graph_tables::ids::Action;
use text::{numbers, tokens};

// The most items of an expression.
pub const ITEMS: usize = 100;

// An action's number, or `e` for EPSILON.
pub fn read_action(token: &[u8]) -> Option<u32> {
    if tokens::is(token, b"e") {
        return Some(Action::EPSILON.0);
    }
    numbers::read_small(token)
}
