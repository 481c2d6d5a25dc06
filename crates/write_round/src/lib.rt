// What leaves with a round, from a window that stands in the machine's arrays: into two buffers, or as the round's record.
#![tactic(auto)]

ghost use Rattle.std.specs.Prelude.{◌≡◌, List, ℕ, ◌≤◌, length};
ghost use Rattle.shape.specs.Sizes.{IsShape, detectors_of, layer_edges_of};
ghost use Rattle.number.specs.Number.{written_buffered};
ghost use Rattle.record.specs.Calls.{write_result, as_result};
ghost use Rattle.steps.specs.Models.{of_model};
ghost use Rattle.window.specs.Round.{committed_edges, escaped_defects};
ghost use Rattle.window.specs.declared.Window.{Window};
ghost use Rattle.flat.specs.Entries.{state_of};
ghost use Rattle.shows.specs.Shows.{Shows};
ghost use Rattle.leave.specs.Leaving.{committed_in, escaped_in};
ghost use Rattle.write_round.specs.Left.{still};

use flat::{Arrays, Layout, MARGIN, PLANE};
use plan::ShapeLayout;
use refusal::Refusal;
use shape::{MAX_DETECTORS, MAX_LAYER_EDGES};

// The bottom layer's corrected edges and the bottom sheet's defects, as their entries have them.
fn leave_bits(laid: &ShapeLayout, arrays: &Arrays, out_edges: &mut [u8], out_escapes: &mut [u8])
    requires out_edges_len { length out_edges.old ≡ layer_edges_of laid.now.shape.model laid.now.shape.height laid.now.shape.distance }
    requires out_escapes_len { length out_escapes.old ≡ detectors_of laid.now.shape.height laid.now.shape.distance }
    ensures out_edges_after { out_edges.new ≡ committed_in laid.now.layout.table arrays.now.edges (layer_edges_of laid.now.shape.model laid.now.shape.height laid.now.shape.distance) }
    ensures out_escapes_after { out_escapes.new ≡ escaped_in laid.now.layout.sizes laid.now.shape.height laid.now.shape.distance arrays.now.nodes }
{
    leave::commit(&arrays.edges, &laid.layout.table, out_edges);
    leave::escape(laid.layout.sizes, laid.shape, &arrays.nodes, out_escapes);
}

// The same, for any window that the arrays show.
pub fn leave_round(
    laid: &ShapeLayout,
    arrays: &Arrays,
    out_edges: &mut [u8],
    out_escapes: &mut [u8],
)
    requires out_edges_len { length out_edges.old ≡ layer_edges_of laid.now.shape.model laid.now.shape.height laid.now.shape.distance }
    requires out_escapes_len { length out_escapes.old ≡ detectors_of laid.now.shape.height laid.now.shape.distance }
    ensures out_edges_after { (w : Window) → w.shape ≡ laid.now.shape → (marks : List ℕ) → Shows (of_model laid.now.shape.model) w (state_of arrays.now.nodes marks arrays.now.edges) → out_edges.new ≡ committed_edges (of_model laid.now.shape.model) w }
    ensures out_escapes_after { (w : Window) → w.shape ≡ laid.now.shape → (marks : List ℕ) → Shows (of_model laid.now.shape.model) w (state_of arrays.now.nodes marks arrays.now.edges) → out_escapes.new ≡ escaped_defects w }
{
    leave_bits(laid, arrays, out_edges, out_escapes);
}

// Nothing leaves: no node of the bottom sheet has a defect, and no edge of any kind there is corrected.
fn is_still(layout: &Layout, arrays: &Arrays) -> bool
    ensures { result ≡ still layout.now.sizes arrays.now.nodes arrays.now.edges }
{
    let z = layout.sizes;
    let bottom = MARGIN + z.nodes - z.sheet;
    let mut none = leave::is_quiet(bottom, z.sheet, &arrays.nodes);
    for kind in 0..z.kinds {
        none &= leave::is_blank(kind * PLANE + bottom, z.sheet, &arrays.edges);
    }
    none
}

// The record of a round in which something leaves.
fn write_lists(
    laid: &ShapeLayout,
    steps: u32,
    arrays: &Arrays,
    out: &mut [u8],
    to: usize,
) -> Result<usize, Refusal>
    requires shape { IsShape laid.now.shape }
    requires to_in_bounds { to ≤ length out.old }
    ensures { written_buffered result out.new ≡ write_result laid.now.shape (as_result (committed_in laid.now.layout.table arrays.now.edges (layer_edges_of laid.now.shape.model laid.now.shape.height laid.now.shape.distance)) (escaped_in laid.now.layout.sizes laid.now.shape.height laid.now.shape.distance arrays.now.nodes) steps) out.old to }
{
    let mut committed = [0; MAX_LAYER_EDGES];
    let mut escaped = [0; MAX_DETECTORS];
    let edges = &mut committed[..extent::layer_edges(laid.shape)];
    let escapes = &mut escaped[..extent::detectors(laid.shape)];
    leave_bits(laid, arrays, edges, escapes);
    result_writer::put_round(laid.shape, edges, escapes, steps, out, to)
}

// The record of a round, for any window that the arrays show: most rounds have nothing to write but their steps.
pub fn write(
    laid: &ShapeLayout,
    steps: u32,
    arrays: &Arrays,
    out: &mut [u8],
    to: usize,
) -> Result<usize, Refusal>
    requires shape { IsShape laid.now.shape }
    requires to_in_bounds { to ≤ length out.old }
    ensures { (w : Window) → w.shape ≡ laid.now.shape → (marks : List ℕ) → Shows (of_model laid.now.shape.model) w (state_of arrays.now.nodes marks arrays.now.edges) → written_buffered result out.new ≡ write_result laid.now.shape (as_result (committed_edges (of_model laid.now.shape.model) w) (escaped_defects w) steps) out.old to }
{
    if is_still(&laid.layout, arrays) {
        return result_writer::write_quiet(laid.shape, steps, out, to);
    }
    write_lists(laid, steps, arrays, out, to)
}
