//! `cfbook mini`: the script of chain calls, against a mini store over a drawer.

ghost use Rattle.std.specs.Prelude.{◌≡◌, true, []};
ghost use Rattle.drawer.specs.Drawn as drawn;

use drawer::Drawer;
use minialloc::MiniStore;
use minifat::Validation;

// A mini store over a fresh drawer, opened: its MiniFAT has no link yet.
pub fn fresh() -> MiniStore<Drawer>
    ensures { result.state.0 ≡ record { opened = true; host = drawn.fresh; links = []; stack = [] } }
{
    let mut store = MiniStore::new(Drawer::new());
    if let Ok(table) = store.read_table(Validation::Strict) {
        store.install(table);
    }
    store
}
