//! What holds of every table and frame.
ghost use Rattle.vlan_rule.specs.Choice.{ChosenOnce};

/// Of every table at most one place is chosen for a frame, and none exactly where no entry matches.
pub fn law_of_choice()
    ensures { ChosenOnce }
{}
