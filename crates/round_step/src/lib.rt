// A round on the machine's arrays: one set moves into the other, one sheet lower, and on top the new sheet is laid.
#![tactic(auto)]

ghost use Rattle.std.specs.Prelude.{◌≡◌, ◌<◌, length};
ghost use Rattle.shape.specs.Sizes.{detectors_of};
ghost use Rattle.steps.specs.Models.{of_model};
ghost use Rattle.window.specs.Window.{max_next};
ghost use Rattle.flat.specs.Entries.{Long};
ghost use Rattle.flat.specs.Structs.{plan_in, state_in};
ghost use Rattle.shows.specs.Sinks.{second_there, Sinks};
ghost use Rattle.round_step.specs.Falls.{FallsNodes, FallsMarks, NoneOutside, NoneAbove};

use flat::{Arrays, MARGIN, PLANE};
use plan::ShapeLayout;
use shape::Shape;

// The second sheet is there after the round.
pub fn second(shape: Shape, next: u32) -> bool
    requires { next < max_next }
    ensures { result ≡ second_there shape.distance next }
{
    1 < window::present(shape, next + 1)
}

// The nodes, with the new sheet's defects.
fn fall_nodes(laid: &ShapeLayout, bytes: &[u8], old: &[u8; PLANE], nodes: &mut [u8; PLANE])
    requires { length bytes.now ≡ detectors_of laid.now.shape.height laid.now.shape.distance }
    ensures { FallsNodes laid.now.shape.height laid.now.shape.distance bytes.now old.now nodes.new }
{
    let z = laid.layout.sizes;
    sinking::sink_nodes(z, old, nodes);
    nodes[MARGIN..MARGIN + z.sheet].fill(0);
    top_sheet::receive(laid.shape, bytes, nodes);
}

// The marks: old ones are of the nodes below, new ones the nodes' own numbers.
fn fall_marks(laid: &ShapeLayout, old: &[u16; PLANE], marks: &mut [u16; PLANE])
    ensures { FallsMarks laid.now.shape.height laid.now.shape.distance laid.now.layout.table old.now marks.new }
{
    let z = laid.layout.sizes;
    sinking::sink_marks(z, sinking::thresholds_of(laid.shape), old, marks);
    top_sheet::fresh_marks(z, marks, &laid.layout.table);
}

// From the old arrays to the new ones.
pub fn fall(laid: &ShapeLayout, second: bool, bytes: &[u8], old: &Arrays, new: &mut Arrays)
    requires bytes_len { length bytes.now ≡ detectors_of laid.now.shape.height laid.now.shape.distance }
    requires none_above { NoneAbove (of_model laid.now.shape.model) laid.now.shape.height laid.now.shape.distance old.now.edges }
    requires none_outside { NoneOutside (of_model laid.now.shape.model) laid.now.shape.height laid.now.shape.distance new.old.edges }
    ensures long { Long new.new.nodes new.new.marks new.new.edges }
    ensures sinks { Sinks (of_model laid.now.shape.model) laid.now.shape.height laid.now.shape.distance (plan_in laid.now.layout) second bytes.now (state_in old.now) (state_in new.new) }
{
    fall_nodes(laid, bytes, &old.nodes, &mut new.nodes);
    fall_marks(laid, &old.marks, &mut new.marks);
    sunk_edges::sink_kinds(&laid.layout, second, &old.edges, &mut new.edges);
}
