use super::requests::Request;
use super::steps::Step;
use names::Entity;

/// What happens to a hall.
#[derive(Drop)]
pub enum Event {
    /// A request of a tenant.
    Request(Entity, Request),
    /// A step of a search.
    Step(Step),
}
