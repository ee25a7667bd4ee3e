//! The row that stands before an expression: that of one input, or a left row followed by a right one.

use crate::columns::Columns;
use crate::sql::Sql;
use og_query::Expr;
use og_value::{Kind, Value};

/// The columns of a row before an expression, `l` on the left and `r` on the right.
#[derive(Clone, Copy)]
pub struct Sight<'a> {
    pub left: &'a Columns,
    pub right: &'a Columns,
}

impl<'a> Sight<'a> {
    /// Whether the place is one of the left row.
    pub fn is_left(&self, place: usize) -> bool {
        place < self.left.len()
    }

    /// Appends the column at that place.
    pub fn put_column(&self, place: usize, out: &mut Sql) {
        if self.is_left(place) {
            out.put("l.");
            return self.left.put(place, out);
        }
        out.put("r.");
        self.right.put(place.saturating_sub(self.left.len()), out)
    }

    /// The kind of the column at that place.
    pub fn kind_at(&self, place: usize) -> Kind {
        if self.is_left(place) {
            return self.left.kind(place);
        }
        self.right.kind(place.saturating_sub(self.left.len()))
    }

    /// Whether the expression is a number or a text, which are the same on all days.
    pub fn is_steady(&self, expr: &Expr) -> bool {
        match expr {
            Expr::Column(place) => is_steady_kind(self.kind_at(*place)),
            Expr::Lit(Value::Int(_)) | Expr::Lit(Value::Text(_)) => true,
            _ => false,
        }
    }

    /// Whether two expressions are columns, one of the left and one of the right row.
    pub fn are_of_both(&self, one: &Expr, two: &Expr) -> bool {
        match (one, two) {
            (Expr::Column(one), Expr::Column(two)) => self.is_left(*one) != self.is_left(*two),
            _ => false,
        }
    }

    /// The place in the right row of the one of two columns that is not one of the left row.
    pub fn right_place(&self, one: &Expr, two: &Expr) -> Option<usize> {
        let (Expr::Column(one), Expr::Column(two)) = (one, two) else {
            return None;
        };
        let place = if self.is_left(*one) { *two } else { *one };
        Some(place.saturating_sub(self.left.len()))
    }
}

/// Whether values of the kind are the same on all days.
pub fn is_steady_kind(kind: Kind) -> bool {
    match kind {
        Kind::Int | Kind::Text => true,
        Kind::Date | Kind::Period => false,
    }
}
