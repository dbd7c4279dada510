//! The cursors of a publication.
ghost use Rattle.std.specs.Prelude.{◌≡◌, IfOk};
ghost use Rattle.session_model.specs.Publication.{making};

use app_model::App;
use ejson_value::{Items, Mem, Text};
use publication::{CursorFault, Cursors};
use session_model::SubFault;
use std::alloc::Global;

/// The cursors of the publication of this name, or why a `sub` of it is refused.
pub fn making(
    alloc: Global,
    app: &App,
    name: &Text,
    params: &Items,
) -> Result<Result<Cursors, SubFault>, Mem>
    ensures { IfOk result (λ made. made ≡ making app.now name.now params.now) }
{
    let Some(publication) = app.publication(name) else {
        return Ok(Err(SubFault::NotFound));
    };
    match Cursors::make(alloc, publication, params) {
        Ok(cursors) => Ok(Ok(cursors)),
        Err(CursorFault::Fill(_)) => Ok(Err(SubFault::BadParameters)),
        Err(CursorFault::Selector(_)) => Ok(Err(SubFault::BadParameters)),
        Err(CursorFault::Memory) => Err(Mem),
    }
}
