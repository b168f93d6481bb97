ghost use Rattle.std.specs.Prelude.{◌≡◌, ◌↔◌, IsTrue};
ghost use Rattle.rnv_base.specs.Names.{IsPackageName};
ghost use Rattle.rnv_release.specs.Package.{is_package_name};

use rnv_base::package_ok;

// Whether a package of this name may have a document.
pub fn is_package(name: &str) -> bool
    ensures value { result ≡ is_package_name name.now }
    ensures fact { IsTrue result ↔ IsPackageName name.now }
{
    package_ok(name)
}
