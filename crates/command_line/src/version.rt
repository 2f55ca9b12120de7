/// What `--version` says behind the program's name: its version, and the logic of Rattle for which the sources were written,
/// as `rt version` names it. It doesn't claim that this build was proved, because a build without proofs prints it too. This is
/// the one place that names the logic; a test compares what is printed.
pub(crate) const VERSION: &str = "1.1.0, written for Rattle, logic dac8208d650f15bf";
