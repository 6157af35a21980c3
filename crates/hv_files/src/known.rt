//! What this run knows of folders.
ghost use Rattle.std.specs.Prelude.{◌≡◌, OnOk, string_bytes};
ghost use Rattle.hv_files.specs.Acts.{Keeps};
ghost use Rattle.hv_files.specs.Acts.Act.{SyncsFolder};

use crate::asked::Change;
use crate::system::{Stand, System};
use hv_paths::{Cause, FileFault, path_in};
use std::alloc::Global;
use std::collections::BTreeSet;

/// What this run knows of folders, so that no call is made twice.
#[derive(Drop)]
pub struct Known {
    /// No sync has failed.
    pub sound: bool,
    /// The folders that were seen to be folders, and no links.
    real: BTreeSet<String>,
    /// The folders whose names survive a stop.
    synced: BTreeSet<String>,
}

impl Known {
    pub fn new(alloc: Global) -> Known {
        Known {
            sound: true,
            real: BTreeSet::new(alloc),
            synced: BTreeSet::new(alloc),
        }
    }

    pub fn sync<S: System>(&mut self, system: &mut S, folder: &str) -> Result<(), FileFault>
        ensures keeps { Keeps (S.did system.old) (S.did system.new) }
        ensures done { OnOk result (S.did system.new (SyncsFolder folder.now)) }
    {
        let synced = system.sync_folder(folder);
        self.sound &= synced.is_ok();
        synced
    }

    /// Syncs a folder that stands.
    pub fn sync_real<S: System>(&mut self, system: &mut S, folder: &str) -> Result<(), FileFault>
        ensures keeps { Keeps (S.did system.old) (S.did system.new) }
    {
        if self.real.contains(folder) {
            self.sync(system, folder)
        } else {
            Ok(())
        }
    }

    /// Whether a folder stands at a path. Anything else there is a failure.
    pub fn is_real<S: System>(&mut self, system: &mut S, path: &String) -> Result<bool, FileFault>
        ensures keeps { Keeps (S.did system.old) (S.did system.new) }
    {
        if self.real.contains(path) {
            return Ok(true);
        }
        match system.stand(path.as_str())? {
            Stand::Nothing => Ok(false),
            Stand::Folder => {
                remember(&mut self.real, path)?;
                Ok(true)
            }
            _ => Err(FileFault::Device(Cause::NotAFolder)),
        }
    }

    /// Whether the folders of these names stand, each in the one before, the first at `root`. None of
    /// them is a link.
    #[tactic(auto, using(crate::proofs::ActLemmas::keeps_on))]
    pub fn is_reached<S: System>(
        &mut self,
        system: &mut S,
        alloc: Global,
        root: &str,
        names: &[String],
    ) -> Result<bool, FileFault>
        ensures keeps { Keeps (S.did system.old) (S.did system.new) }
    {
        let mut path = String::from_str(alloc, root)?;
        for name in names {
            if !self.is_real(system, &path)? {
                return Ok(false);
            }
            path = path_in(alloc, path.as_str(), name.as_str())?;
        }
        self.is_real(system, &path)
    }

    /// Makes a folder in one that stands, so that its name survives a stop.
    fn make_folder<S: System>(
        &mut self,
        system: &mut S,
        outer: &str,
        path: &String,
    ) -> Result<(), FileFault>
        ensures keeps { Keeps (S.did system.old) (S.did system.new) }
    {
        if self.synced.contains(path) {
            return Ok(());
        }
        if !system.change(Change::MakeFolder, path.as_str(), "")? {
            if !matches!(system.stand(path.as_str())?, Stand::Folder) {
                return Err(FileFault::Device(Cause::NotAFolder));
            }
        }
        self.sync(system, outer)?;
        remember(&mut self.real, path)?;
        remember(&mut self.synced, path)
    }

    /// Makes the folders of these names, each in the one before, the first in `root`.
    #[tactic(auto, using(crate::proofs::ActLemmas::keeps_on))]
    pub fn make_folders<S: System>(
        &mut self,
        system: &mut S,
        alloc: Global,
        root: &str,
        names: &[String],
    ) -> Result<(), FileFault>
        ensures keeps { Keeps (S.did system.old) (S.did system.new) }
    {
        let mut path = String::from_str(alloc, root)?;
        for name in names {
            let inner = path_in(alloc, path.as_str(), name.as_str())?;
            self.make_folder(system, path.as_str(), &inner)?;
            path = inner;
        }
        Ok(())
    }

    /// The folder is one no more.
    pub fn forget(&mut self, folder: &String) {
        let _ = self.real.remove(folder);
        let _ = self.synced.remove(folder);
    }

    /// The names in a folder, none where nothing stands there. What stands there and isn't a folder that
    /// can be read has none either, unless the name is ours: that is a failure.
    pub fn names_in<S: System>(
        &mut self,
        system: &mut S,
        alloc: Global,
        path: &String,
        ours: bool,
    ) -> Result<Vec<String>, FileFault>
        ensures keeps { Keeps (S.did system.old) (S.did system.new) }
    {
        match system.names_in(alloc, path.as_str()) {
            Ok(Some(names)) => {
                remember(&mut self.real, path)?;
                Ok(names)
            }
            Ok(None) => Ok(Vec::new(alloc)),
            Err(FileFault::Device(Cause::NotAFolder | Cause::NotPermitted)) if !ours => {
                Ok(Vec::new(alloc))
            }
            Err(fault) => Err(fault),
        }
    }
}

/// Notes a path among others.
fn remember(paths: &mut BTreeSet<String>, path: &String) -> Result<(), FileFault> {
    paths.insert(path.clone()?)?;
    Ok(())
}
