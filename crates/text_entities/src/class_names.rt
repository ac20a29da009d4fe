//! What the standard's common classes are called.
use managed_entity::class_name;

/// What a class is called (ITU-T G.988, clause 9), whether this unit has it or not; None where it is no common one.
pub fn standard_class_name(class: u16) -> Option<&'static str> {
    if let Some(name) = class_name(class) {
        return Some(name);
    }
    match class {
        5 => Some("Cardholder"),
        6 => Some("Circuit pack"),
        7 => Some("Software image"),
        11 => Some("Physical path termination point Ethernet UNI"),
        45 => Some("MAC bridge service profile"),
        47 => Some("MAC bridge port configuration data"),
        84 => Some("VLAN tagging filter data"),
        131 => Some("OLT-G"),
        256 => Some("ONU-G"),
        257 => Some("ONU2-G"),
        262 => Some("T-CONT"),
        263 => Some("ANI-G"),
        264 => Some("UNI-G"),
        272 => Some("GAL Ethernet profile"),
        277 => Some("Priority queue"),
        278 => Some("Traffic scheduler"),
        280 => Some("Traffic descriptor"),
        281 => Some("Multicast GEM interworking termination point"),
        309 => Some("Multicast operations profile"),
        310 => Some("Multicast subscriber config info"),
        329 => Some("Virtual Ethernet interface point"),
        _ => None,
    }
}
