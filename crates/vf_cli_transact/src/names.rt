//! The names of layers and of faults in lines.
ghost use Rattle.std.specs.Prelude.{◌≡◌};
ghost use Rattle.vf_cli_transact.specs.Lines.{fault_name, layer_name};

use vf_stack::{FaultName, Layer};

pub(crate) fn name_of_layer(layer: Layer) -> &'static str
    ensures { result.now ≡ layer_name layer }
{
    match layer {
        Layer::Transport => "Transport",
        Layer::Session => "Session",
        Layer::Upper => "Upper",
        Layer::Ftam => "Ftam",
    }
}

pub(crate) fn name_of_fault(name: FaultName) -> &'static str
    ensures { result.now ≡ fault_name name }
{
    match name {
        FaultName::Version => "Version",
        FaultName::Length => "Length",
        FaultName::Code => "Code",
        FaultName::State => "State",
        FaultName::Size => "Size",
        FaultName::Missing => "Missing",
        FaultName::Value => "Value",
        FaultName::Serial => "Serial",
        FaultName::Token => "Token",
        FaultName::Context => "Context",
        FaultName::Grammar => "Grammar",
        FaultName::Application => "Application",
        FaultName::Short => "Short",
        FaultName::Bad => "Bad",
        FaultName::Deep => "Deep",
        FaultName::Long => "Long",
        FaultName::Unknown => "Unknown",
        FaultName::Field => "Field",
        FaultName::Range => "Range",
    }
}
