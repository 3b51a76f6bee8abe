//! The form of a data file, which its name says.

ghost use Rattle.std.specs.Prelude.{◌≡◌, Some, IfNone, IfSome};
ghost use Rattle.osm_runs.specs.DataForms.{HasDataEnd, HasNoDataForm};
ghost use Rattle.osm_runs.specs.declared.data_form.DataForm.{DataForm};

/// The two forms of data files.
#[derive(Clone, Copy, Debug, PartialEq, Eq)]
pub enum DataForm {
    /// `.opl`
    Opl,
    /// `.o5m`
    O5m,
}

/// Gives the form of a data file by the ending of its name, `.opl` or `.o5m`; None for any other
/// ending.
pub fn data_form_of(name: &str) -> Option<DataForm>
    ensures found { IfSome result (HasDataEnd name.now) }
    ensures only { (form : DataForm) → HasDataEnd name.now form → result ≡ Some form }
    ensures none { IfNone result (HasNoDataForm name.now) }
{
    let bytes = name.as_bytes();
    if bytes.ends_with(b".opl") {
        return Some(DataForm::Opl);
    }
    if bytes.ends_with(b".o5m") {
        return Some(DataForm::O5m);
    }
    None
}
