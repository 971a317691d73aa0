//! Addresses: the action, the operator and the plan id of a request, from its head.

ghost use Rattle.std.specs.Prelude.{◌≡◌, codes};
ghost use Rattle.request_parser.specs.{Requests.address_of, Requests.address_shown, Requests.operator_of, Heads.count_in, Messages.Gives};

use crate::fields::Occurrence;
use crate::head::Head;
use crate::resource::Action;
use crate::routes::find_target;
use crate::wire_fault::WireFault;
use desk_rules::operator::Operator;

/// What the head of a request says: the action, the operator and the plan id.
#[derive(Clone, Copy)]
pub struct Address<'t> {
    pub action: Action,
    pub operator: Operator,
    /// The id in the path of a flight plan, not parsed yet. Empty at another resource.
    pub id: &'t str,
}

/// Reads the action, the operator and the plan id from `head`. The id is not parsed yet.
///
/// # Errors
///
/// The first that applies: `NoRoute` if no resource has the path, `Method` if the resource doesn't have the
/// method, `BadOperator` if no operator is named.
#[tactic(auto, unfolding(crate::specs::Requests::address_of))]
pub fn read_address<'t>(head: &Head<'t>) -> Result<Address<'t>, WireFault>
    ensures { Gives address_shown result (address_of head.now) }
{
    let target = find_target(head.target()).ok_or(WireFault::NoRoute)?;
    let Some(action) = target.route.action(head.method()) else {
        return Err(WireFault::Method(target.route));
    };
    let operator = find_operator(head).ok_or(WireFault::BadOperator)?;
    Ok(Address {
        action,
        operator,
        id: target.id,
    })
}

// The operator that the field `x-operator` names. `None` unless the field occurs once, with a valid name.
// Whether the operator is enrolled is not known here.
fn find_operator(head: &Head<'_>) -> Option<Operator>
    ensures { result ≡ operator_of (count_in (codes "x-operator") head.now.fields) }
{
    match head.field(b"x-operator") {
        Occurrence::Value(name) => Operator::try_new(name),
        _ => None,
    }
}
