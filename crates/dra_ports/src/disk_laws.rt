ghost use Rattle.std.specs.Prelude.{◌≡◌, ◌≤◌, ℕ, IsTrue, List, length};
ghost use Rattle.dra_ports.specs.DiskContent.{Content, IsImage, exactly, shortened, synced, written};

/// States that what a read returns stays among the byte lists that a crash may leave, whichever call
/// succeeds, and that it is the only one after a sync of an honest disk.
pub fn reads_are_images()
    ensures write { (c : Content) (at : ℕ) (from : List ℕ) → at ≤ length c.bytes → IsImage c.sure c.bytes → IsImage (written at from c).sure (written at from c).bytes }
    ensures cut { (c : Content) (len : ℕ) → IsImage c.sure c.bytes → IsImage (shortened len c).sure (shortened len c).bytes }
    ensures sync { (c : Content) → IsImage c.sure c.bytes → IsImage (synced c).sure (synced c).bytes }
    ensures only { (c : Content) (image : List ℕ) → IsTrue c.honest → IsImage (synced c).sure image → image ≡ c.bytes }
    ensures exact { (bytes image : List ℕ) → IsImage (exactly bytes) image → image ≡ bytes }
{}
