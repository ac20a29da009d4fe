//! The version. `shell/version` reads it for all that name it.

/// What `--version` shows: the version, and the kit that it was proved with, which `./prove` writes anew where another kit proves it.
pub const VERSION: &str = "0.2.0, proved with rattle-kit-13f logic dac8208d650f15bf";
