// The calls of a list, and their numbers in it.
use crate::{alike, census, coefficients, columns, contexts, cut, group_layout, orders, transform};
use std::fmt;

#[derive(Clone, Copy)]
pub(crate) enum Call {
    Transform = 1,
    ColumnCount = 2,
    Layout = 3,
    Cut = 4,
    Alike = 5,
    Contexts = 6,
    Orders = 7,
    Coefficients = 8,
    Census = 9,
}

pub(crate) const CALLS: [Call; 9] = [
    Call::Transform,
    Call::ColumnCount,
    Call::Layout,
    Call::Cut,
    Call::Alike,
    Call::Contexts,
    Call::Orders,
    Call::Coefficients,
    Call::Census,
];

impl Call {
    pub(crate) fn number(self) -> u32 {
        self as u32
    }

    // Makes the call, and gives how many numbers its answer has; 0 where it cannot be made.
    pub(crate) fn replay(self, body: &[u8], words: &[u32], out: &mut [usize; 48]) -> usize {
        match self {
            Call::Transform => transform::replay(words, out),
            Call::ColumnCount => columns::replay(body, words, out),
            Call::Layout => group_layout::replay(words, out),
            Call::Cut => cut::replay(body, words, out),
            Call::Alike => alike::replay(body, words, out),
            Call::Contexts => contexts::replay(body, words, out),
            Call::Orders => orders::replay(body, words, out),
            Call::Coefficients => coefficients::replay(body, words, out),
            Call::Census => census::replay(words, out),
        }
    }
}

// Its name, in 12 columns.
impl fmt::Display for Call {
    fn fmt<W: fmt::Write>(&self, f: &mut fmt::Formatter<W>) -> fmt::Result {
        let name = match *self {
            Call::Transform => "transform",
            Call::ColumnCount => "column count",
            Call::Layout => "layout",
            Call::Cut => "cut",
            Call::Alike => "alike",
            Call::Contexts => "contexts",
            Call::Orders => "orders",
            Call::Coefficients => "coefficients",
            Call::Census => "census",
        };
        write!(f, "{name:<12}")
    }
}
