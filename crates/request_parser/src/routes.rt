//! Routes: from the target of a request to the resource that it names.

ghost use Rattle.std.specs.Prelude.{◌≡◌, option_map};
ghost use Rattle.request_parser.specs.Routes as spec;
ghost use Rattle.request_parser.specs.Routes.{path_of, plan_id_in, rest_in, route_in, route_of, target_shown};

use crate::resource::Route;

// The path of a flight plan, up to its id.
const PLANS_FOLDER: &str = "/flight_plans/";

/// The resource that a request target names.
#[derive(Clone, Copy)]
pub struct Target<'t> {
    pub route: Route,
    /// The id in the path of a flight plan, not parsed yet. Empty at another resource.
    pub id: &'t str,
}

/// The resource and the plan id that `target`, a request target, names. `None` if there is no such resource,
/// or the target isn't UTF-8. The id is not parsed yet.
pub fn find_target(target: &[u8]) -> Option<Target<'_>>
    ensures { option_map target_shown result ≡ route_in target.now }
{
    match str::from_utf8(target) {
        Ok(target) => find_route(read_path(target)),
        Err(_) => None,
    }
}

// The path of a request target: all before its first `?`, or all of it if it has none. The query is ignored.
fn read_path(target: &str) -> &str
    ensures { result.now ≡ path_of target.now }
{
    target.split_once('?').map_or(target, |(path, _query)| path)
}

// The resource at `path`, with its plan id, not parsed yet; `None` if no resource has this path.
#[tactic(auto, unfolding(crate::specs::Routes::route_of))]
fn find_route(path: &str) -> Option<Target<'_>>
    ensures { option_map target_shown result ≡ route_of path.now }
{
    match path {
        "/clear_area_requests" => Some(target_without_id(Route::ClearAreaRequests)),
        "/flight_plans" => Some(target_without_id(Route::FlightPlans)),
        "/status" => Some(target_without_id(Route::Status)),
        _ => find_plan_id(path).map(|id| Target {
            route: Route::FlightPlan,
            id,
        }),
    }
}

// The target that names `route`, a resource whose path has no plan id.
fn target_without_id(route: Route) -> Target<'static>
    ensures { target_shown result ≡ spec.place_without_id route }
{
    Target { route, id: "" }
}

// The id in the path of a flight plan, not parsed yet: one path segment. `None` if `path` isn't that of a
// flight plan.
#[tactic(auto, unfolding(crate::specs::Routes::plan_id_in))]
fn find_plan_id(path: &str) -> Option<&str>
    ensures { option_map (λ id. id.now) result ≡ plan_id_in path.now }
{
    let id = strip_plans_folder(path)?;
    if is_segment(id) { Some(id) } else { None }
}

// The rest of `path` after `/flight_plans/`; `None` if `path` doesn't begin with that.
fn strip_plans_folder(path: &str) -> Option<&str>
    ensures { option_map (λ rest. rest.now) result ≡ rest_in path.now }
{
    path.strip_prefix(PLANS_FOLDER)
}

// Whether `text` is one path segment: not empty, and without a slash.
fn is_segment(text: &str) -> bool
    ensures { result ≡ spec.is_segment text.now }
{
    !text.is_empty() && !has_slash(text.as_bytes())
}

// Whether a slash is among `bytes`.
fn has_slash(bytes: &[u8]) -> bool
    ensures { result ≡ spec.has_slash bytes.now }
{
    bytes.iter().any(|byte| *byte == b'/')
}
