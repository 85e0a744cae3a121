//! The places of a new reader, one for each node.

ghost use Rattle.std.specs.Prelude.{◌≡◌, ◌++◌, [], OnOk};
ghost use Rattle.gcl_model.specs.FormOf.{form_of};
ghost use Rattle.gcl_eval.specs.Operands.{operand_forms};
ghost use Rattle.gcl_readers.specs.NewPlaces.{new_places, new_places_below, new_places_of};

use crate::front::{Front, Place};
use gcl_model::Expr;
use std::alloc::AllocError;

/// Puts a place for the node, and then those of its operands.
#[cycle(putting)]
pub(crate) fn put_places(expr: &Expr, places: &mut Vec<Place>) -> Result<(), AllocError>
    ensures { OnOk result (places.new.items ≡ places.old.items ++ new_places (form_of expr.now)) }
{
    let at = places.len();
    places.push(Place {
        size: 1,
        front: Front::Before,
    })?;
    put_below(expr, places)?;
    let size = places.len() - at;
    places[at] = Place {
        size,
        front: Front::Before,
    };
    Ok(())
}

/// Puts the places of a node's operands.
#[cycle(putting)]
fn put_below(expr: &Expr, places: &mut Vec<Place>) -> Result<(), AllocError>
    ensures { OnOk result (places.new.items ≡ places.old.items ++ new_places_below (form_of expr.now)) }
{
    match expr {
        Expr::Term(_) | Expr::Phrase(_) | Expr::Width(_) => Ok(()),
        Expr::Both(operands) | Expr::One(operands) | Expr::Seq(operands) => {
            put_all(operands, places)
        }
        Expr::Containing(a, b)
        | Expr::ContainedIn(a, b)
        | Expr::NotContaining(a, b)
        | Expr::NotContainedIn(a, b) => {
            put_places(a, places)?;
            put_places(b, places)
        }
    }
}

/// Puts the places of these nodes.
#[cycle(putting)]
fn put_all(operands: &[Expr], places: &mut Vec<Place>) -> Result<(), AllocError>
    ensures { OnOk result (places.new.items ≡ places.old.items ++ new_places_of (operand_forms operands.now)) }
{
    for operand in operands {
        put_places(operand, places)?;
    }
    Ok(())
}
