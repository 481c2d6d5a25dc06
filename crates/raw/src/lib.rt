// Receiving a round of raw measurements.
#![tactic(auto)]

ghost use Rattle.std.specs.Prelude.{◌≡◌, true, ◌<◌, ◌≤◌, length};
ghost use Rattle.shape.specs.Sizes.{detectors_of, layer_edges_of, max_detectors};
ghost use Rattle.steps.specs.Models.{of_model};
ghost use Rattle.window.specs.Window.{is_rest, max_next};
ghost use Rattle.window.specs.Formed.{well_formed};
ghost use Rattle.window.specs.Measured.{differences as differences_of, as_sheet};
ghost use Rattle.window.specs.Calls.{as_round, receiving_raw};

use shape::MAX_DETECTORS;
use window::Window;

// Where the bytes differ from a sheet.
fn differences(sheet: &[bool; MAX_DETECTORS], bytes: &[u8], defects: &mut [u8])
    requires bytes_len_bound { length bytes.now ≤ max_detectors }
    requires defects_len { length defects.old ≡ length bytes.now }
    ensures { defects.new ≡ differences_of sheet.now bytes.now }
{
    for (i, byte) in bytes.iter().enumerate() {
        defects[i] = u8::from((*byte == 1) ^ sheet[i]);
    }
}

// The bytes as a sheet.
fn sheet_of(bytes: &[u8]) -> [bool; MAX_DETECTORS]
    requires { length bytes.now ≤ max_detectors }
    ensures { result ≡ as_sheet bytes.now }
{
    let mut sheet = [false; MAX_DETECTORS];
    for (i, byte) in bytes.iter().enumerate() {
        sheet[i] = *byte == 1;
    }
    sheet
}

// The round is received with the places that differ from the last measured sheet; then the sheet is the bytes.
pub fn raw(w: Window, bytes: &[u8], edges: &mut [u8], escapes: &mut [u8]) -> Window
    requires w_value { well_formed (of_model w.shape.model) w ≡ true }
    requires stage_value { is_rest w.stage ≡ true }
    requires next_lt_max_next { w.next < max_next }
    requires bytes_len { length bytes.now ≡ detectors_of w.shape.height w.shape.distance }
    requires edges_len { length edges.old ≡ layer_edges_of w.shape.model w.shape.height w.shape.distance }
    requires escapes_len { length escapes.old ≡ detectors_of w.shape.height w.shape.distance }
    ensures { as_round result edges.new escapes.new ≡ receiving_raw (of_model w.shape.model) w bytes.now }
{
    let n = bytes.len();
    let sheet = sheet_of(bytes);
    let mut defects = [0; MAX_DETECTORS];
    differences(&w.measured, bytes, &mut defects[..n]);
    Window {
        measured: sheet,
        ..machine::round(w, &defects[..n], edges, escapes)
    }
}
