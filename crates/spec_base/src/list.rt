//! A list that a contract sees as its items.

use std::marker::Model;

/// Items in order.
#[derive(Debug, Drop)]
pub struct List<T> {
    pub items: Vec<T>,
}

impl<T> Model for List<T> {
    ghost use Rattle.std.specs.Prelude as list;

    ghost Value = { list.List T };

    ghost view = { λ l. l.items.items };
}
