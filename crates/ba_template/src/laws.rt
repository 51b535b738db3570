//! What a match is good for, stated as functions that do nothing.
ghost use Rattle.ba_template.specs.Found.{MatchedIsStrong};
ghost use Rattle.ba_template.specs.Shapes.{InstanceHasShape};

use ba_comply::laws::strong_is_kept;

/// With values of their kinds for its variables a query has the same shape: what a template matches
/// has the template's shape.
pub fn instance_has_shape()
    ensures { InstanceHasShape }
{}

/// What a template matches, in a context that fits the policy, is strongly compliant after the trace.
pub fn matched_is_strong()
    ensures { MatchedIsStrong }
{
    strong_is_kept();
}
