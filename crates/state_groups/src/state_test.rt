//! What a growth is tested for: the groups that fit a state.

use crate::state::State;
use crate::tables::Tables;
use certificate_data::Format;

/// The test of a state. It has the format and the state that groups must fit, and the tables that are made once for
/// the state. `exact` tells whether only sets of the greatest allowed number of places are asked for.
#[derive(Drop)]
pub(crate) struct StateTest<'a, C> {
    pub(crate) format: Format,
    pub(crate) state: &'a State<C>,
    pub(crate) exact: bool,
    pub(crate) tables: &'a Tables,
}
