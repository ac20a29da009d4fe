//! What holds of every finding, and of every port.
ghost use Rattle.explain_findings.specs.Claims.{FindingsHold};
ghost use Rattle.explain_findings.specs.Ports.{NothingElsewhere};

/// Every finding about entities whose tables hold rules holds what it claims. Entities hold nothing else after every list of
/// requests.
pub fn law_of_findings()
    ensures { FindingsHold }
{}

/// A port that no managed entity names has neither a table nor a mapper, so all frames that come in there are dropped.
pub fn law_of_named_ports()
    ensures { NothingElsewhere }
{}
