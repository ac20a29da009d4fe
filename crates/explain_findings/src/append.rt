//! Findings that there may be, put behind those that there are.
ghost use Rattle.std.specs.Prelude.{◌≡◌, ◌++◌, OnOk};
ghost use Rattle.std.specs.Option.{option_to_list};
ghost use Rattle.managed_entity.specs.declared.class.Class.{Class};
ghost use Rattle.explain_findings.specs.Findings.{another, found, is_number, unreached};

use crate::finding::Finding;
use managed_entity::Class;
use std::alloc::AllocError;

/// Appends a finding, if there is one.
pub(crate) fn append(findings: &mut Vec<Finding>, found: Option<Finding>) -> Result<(), AllocError>
    ensures { OnOk result (findings.new.items ≡ findings.old.items ++ option_to_list found) }
{
    if let Some(finding) = found {
        findings.push(finding)?;
    }
    Ok(())
}

/// Appends the findings that there are.
pub(crate) fn append_all(
    findings: &mut Vec<Finding>,
    list: &[Option<Finding>],
) -> Result<(), AllocError>
    ensures { OnOk result (findings.new.items ≡ findings.old.items ++ found list.now) }
{
    'each: for found in list {
        append(findings, *found)?;
    }
    Ok(())
}

/// A number, if it is another one.
pub(crate) fn another(number: Option<u16>, than: u16) -> Option<u16>
    ensures { result ≡ another number than }
{
    match number {
        Some(other) if other != than => Some(other),
        _ => None,
    }
}

/// Whether it is this number.
pub(crate) fn is_number(number: u16, of: Option<u16>) -> bool
    ensures { result ≡ is_number number of }
{
    match of {
        Some(other) => other == number,
        None => false,
    }
}

/// The instance, if it isn't among those that are reached.
pub(crate) fn unreached(class: Class, instance: u16, among: &[u16]) -> Option<Finding>
    ensures { result ≡ unreached class instance among.now }
{
    (!among.contains(&instance)).then_some(Finding::Unreached { class, instance })
}
