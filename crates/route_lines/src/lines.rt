// Writes items that have plain lines.
ghost use Rattle.std.specs.Prelude.{◌≡◌, ◌++◌, ℕ, List, OnOk, IfOk, flat_map};
ghost use Rattle.route_lines.specs.RouteLines.{route_line, plain_routes_of};

use line_texts::{push_field, push_text, push_thousandths};
use route_base::OutOfMemory;
use std::alloc::Global;

/// What has plain lines: a leg or a route.
pub trait PlainLines {
    /// The lines of an item.
    ghost lines: { Self → List ℕ };

    /// Appends the lines. Linear in their bytes.
    fn push_lines(&self, out: &mut Vec<u8>) -> Result<(), OutOfMemory>
        ensures { OnOk result (out.new.items ≡ out.old.items ++ lines self.now) };
}

/// Appends the lines of items, such as the legs of a route. Linear in their bytes.
pub fn push_each<T: PlainLines>(out: &mut Vec<u8>, items: &[T]) -> Result<(), OutOfMemory>
    ensures { OnOk result (out.new.items ≡ out.old.items ++ flat_map T.lines items.now) }
{
    for item in items {
        item.push_lines(out)?;
    }
    Ok(())
}

/// Appends the first line of a route: a word, a minute in Unix minutes, and a cost in thousandths with three decimals.
pub fn push_route_line(
    out: &mut Vec<u8>,
    word: &str,
    minute: u64,
    cost: u64,
) -> Result<(), OutOfMemory>
    ensures { OnOk result (out.new.items ≡ out.old.items ++ route_line word.now minute cost) }
{
    push_field(out, word, minute)?;
    push_text(out, " ")?;
    push_thousandths(out, cost)?;
    push_text(out, "\n")
}

/// The report in plain lines: the number of routes, then each with its legs. Linear in the number of legs.
pub fn plain_routes<T: PlainLines>(alloc: Global, routes: &[T]) -> Result<Vec<u8>, OutOfMemory>
    ensures { IfOk result (λ text. text.items ≡ plain_routes_of T.lines routes.now) }
{
    let mut out = Vec::new(alloc);
    push_field(&mut out, "pairs ", routes.len() as u64)?;
    push_text(&mut out, "\n")?;
    push_each(&mut out, routes)?;
    Ok(out)
}
