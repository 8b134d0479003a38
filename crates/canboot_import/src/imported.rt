//! A slave of a network list from a device file.

ghost use Rattle.std.specs.Prelude.{◌≡◌, All, IfErr, IfOk, IfSome, IsTrue, MatchOption, codes, if◌then◌else◌, true};
ghost use Rattle.cm_netlist.specs.Network.{terms_of};
ghost use Rattle.cm_device.specs.DeviceFiles.{IsNumber};
ghost use Rattle.canboot_import.specs.Imports.{AreTermsOf, HasDevice, IsDeviceInfo, IsDeviceType, IsIdentity, IsIdentityUnread};
ghost use Rattle.canboot_import.specs.Imports.{IsNodeOf, IsObjectUnread, IsOfFile, IsSerial};
ghost use Rattle.cm_device.specs.FileValues.{IsSetting, StandsUnread};
ghost use Rattle.cm_device.specs.FileLines.{AreAllOf, AreOf};
ghost use Rattle.canboot_import.specs.LinesRead.{AreIdentitiesOf, AreRead, AreTold, AreUnreadOf, IsNumberRead, IsObjectRead};
ghost use Rattle.canboot_import.specs.LinesRead.{StandsAsNode, number_or_0, or_0};
ghost use Rattle.cm_device.specs.SettingsMade.{AllWrites, IsOf};

use crate::slave_text::put_uncompared;
use arrayvec::ArrayVec;
use cm_device::{
    FileFault, Item, MOST_WRITES, Settings, given_item, number, object_of, settings_of, value_of,
};
use cm_netlist::SlaveEntry;
use cm_nmt::{Assignment, NodeId, Terms, Write as Configuring};
use std::alloc::Global;

/// What a slave is made of beside its file.
#[derive(Clone, Copy)]
pub struct ImportWords {
    /// Its node-ID, in the place of the one that the file has.
    pub id: Option<NodeId>,
    /// Whether it is mandatory (1F81h, bit 3).
    pub mandatory: bool,
    /// The time in ms in which a heartbeat has to come, 0 for none.
    pub heartbeat_ms: u16,
    /// How many of the first writes it has at most, where it isn't to be refused for having more than 32.
    pub first: Option<u8>,
    /// Whether it isn't to be refused where a value of the file is no write.
    pub is_partly: bool,
}

/// Why a file gives no slave.
#[derive(Drop)]
pub(crate) enum ImportFault<'a> {
    /// It is no device file, or memory was refused.
    File(FileFault),
    /// It has neither 1000h nor 1018h.
    NoDevice,
    /// Neither it nor the words give a node-ID.
    NoNode,
    /// The node-ID that it has is none.
    BadNode(Item<'a>),
    /// The slave is mandatory, and not all of what its device is compared with can be read: a line for each value.
    Unread(Vec<u8>),
    /// It has more writes than a slave can have, and the first of them weren't asked for.
    Many(Settings<'a>),
    /// Not each of its values is a write.
    Unwritten(Settings<'a>),
    /// What was written isn't the list of just this slave where it is read back, so it isn't given.
    NoList,
}

/// What a device is compared with: each a number, 0 where none is given; or what stands in the file, and is no number.
#[derive(Clone, Copy)]
pub(crate) struct Identity<'a> {
    pub device_type: Result<u32, Item<'a>>,
    pub vendor: Result<u32, Item<'a>>,
    pub product: Result<u32, Item<'a>>,
    pub revision: Result<u32, Item<'a>>,
    pub serial: Result<u32, Item<'a>>,
}

impl Identity<'_> {
    /// Whether each of them is a number.
    fn is_read(&self) -> bool
        ensures { IsTrue result → AreRead self.now }
    {
        self.device_type.is_ok()
            && self.vendor.is_ok()
            && self.product.is_ok()
            && self.revision.is_ok()
            && self.serial.is_ok()
    }
}

/// The number of a key in a section of this name, if a value stands there that isn't empty; that value where it is no number.
fn read_number<'a>(
    items: &[Item<'a>],
    name: &str,
    key: &str,
    node: NodeId,
) -> Result<Option<u32>, Item<'a>>
    ensures read { (file : _) → AreOf file items.now → AreAllOf file items.now
        → IfOk result (IsNumberRead file node name.now key.now) }
    ensures unread { (file : _) → AreOf file items.now → AreAllOf file items.now
        → IfErr result (λ _. StandsUnread file node name.now key.now) }
{
    let Some(item) = given_item(items, name.as_bytes(), key.as_bytes()) else {
        return Ok(None);
    };
    match number(item.value, node) {
        Some(number) => Ok(Some(number)),
        None => Err(*item),
    }
}

/// The value of an object: the one that is given, else its default.
fn object_value<'a>(items: &[Item<'a>], name: &str, node: NodeId) -> Result<Option<u32>, Item<'a>>
    ensures read { (file : _) → AreOf file items.now → AreAllOf file items.now
        → IfOk result (IsObjectRead file node name.now) }
    ensures unread { (file : _) → AreOf file items.now → AreAllOf file items.now
        → IfErr result (λ _. IsObjectUnread file node name.now) }
{
    match read_number(items, name, "ParameterValue", node)? {
        Some(value) => Ok(Some(value)),
        None => read_number(items, name, "DefaultValue", node),
    }
}

/// What the file says of its device under this key, or 0.
fn device_info<'a>(items: &[Item<'a>], key: &str, node: NodeId) -> Result<u32, Item<'a>>
    ensures read { (file : _) → AreOf file items.now → AreAllOf file items.now
        → IfOk result (IsDeviceInfo file node key.now) }
    ensures unread { (file : _) → AreOf file items.now → AreAllOf file items.now
        → IfErr result (λ _. StandsUnread file node (codes "DeviceInfo") key.now) }
{
    match read_number(items, "DeviceInfo", key, node)? {
        Some(value) => Ok(value),
        None => Ok(0),
    }
}

/// The number, or 0.
fn or_0(value: Option<u32>) -> u32
    ensures { result ≡ or_0 value }
{
    match value {
        Some(number) => number,
        None => 0,
    }
}

/// One of 1018h's values, or what the file says of its device beside them, or 0.
fn identity_value<'a>(
    items: &[Item<'a>],
    name: &str,
    key: &str,
    node: NodeId,
) -> Result<u32, Item<'a>>
    ensures read { (file : _) → AreOf file items.now → AreAllOf file items.now
        → IfOk result (IsIdentity file node name.now key.now) }
    ensures unread { (file : _) → AreOf file items.now → AreAllOf file items.now
        → IfErr result (λ _. IsIdentityUnread file node name.now key.now) }
{
    let value = object_value(items, name, node)?;
    let number = or_0(value);
    if number == 0 {
        return device_info(items, key, node);
    }
    Ok(number)
}

/// The device type, or 0.
fn device_type<'a>(items: &[Item<'a>], node: NodeId) -> Result<u32, Item<'a>>
    ensures read { (file : _) → AreOf file items.now → AreAllOf file items.now
        → IfOk result (IsDeviceType file node) }
    ensures unread { (file : _) → AreOf file items.now → AreAllOf file items.now
        → IfErr result (λ _. IsObjectUnread file node (codes "1000")) }
{
    match object_value(items, "1000", node)? {
        Some(value) => Ok(value),
        None => Ok(0),
    }
}

/// The serial number that a device configuration file has, or 0.
fn serial<'a>(items: &[Item<'a>], node: NodeId) -> Result<u32, Item<'a>>
    ensures read { (file : _) → AreOf file items.now → AreAllOf file items.now
        → IfOk result (IsSerial file node) }
    ensures unread { (file : _) → AreOf file items.now → AreAllOf file items.now
        → IfErr result (λ _. StandsUnread file node (codes "1018sub4") (codes "ParameterValue")) }
{
    match read_number(items, "1018sub4", "ParameterValue", node)? {
        Some(value) => Ok(value),
        None => Ok(0),
    }
}

/// What the device of a file is compared with.
fn identity_of<'a>(items: &[Item<'a>], node: NodeId) -> Identity<'a>
    ensures read { (file : _) → AreOf file items.now → AreAllOf file items.now → AreIdentitiesOf file node result }
    ensures unread { (file : _) → AreOf file items.now → AreAllOf file items.now → AreUnreadOf file node result }
{
    Identity {
        device_type: device_type(items, node),
        vendor: identity_value(items, "1018sub1", "VendorNumber", node),
        product: identity_value(items, "1018sub2", "ProductNumber", node),
        revision: identity_value(items, "1018sub3", "RevisionNumber", node),
        serial: serial(items, node),
    }
}

/// Whether an item is one of the device type or of an identity.
fn is_of_device(item: &Item<'_>) -> bool
    ensures { (file : _) → IsTrue result → IsOf file item.now → HasDevice file }
{
    match object_of(item.section) {
        Some((index, _)) => index == 0x1000 || index == 0x1018,
        None => false,
    }
}

/// Whether the file has the device type or an identity among its objects.
fn has_device(items: &[Item<'_>]) -> bool
    ensures { (file : _) → AreOf file items.now → IsTrue result → HasDevice file }
{
    for item in items {
        if is_of_device(item) {
            return true;
        }
    }
    false
}

/// The item of the node-ID that a device configuration file has.
fn node_item<'s, 'a>(items: &'s [Item<'a>]) -> Option<&'s Item<'a>>
    ensures { (file : _) → AreOf file items.now
        → IfSome result (λ i. StandsAsNode file i.now.value.now) }
{
    match given_item(items, "DeviceComissioning".as_bytes(), "NodeID".as_bytes()) {
        Some(item) => Some(item),
        None => given_item(items, "DeviceCommissioning".as_bytes(), "NodeID".as_bytes()),
    }
}

/// The number of a node-ID.
fn node_number(value: &[u8]) -> Option<u32>
    ensures { IfSome result (IsNumber 1 value.now) }
{
    number(value, NodeId::new(1)?)
}

/// The node-ID that this value is.
fn node_of(value: &[u8]) -> Option<NodeId>
    ensures { IfSome result (IsNumber 1 value.now) }
{
    let found = u8::try_from(node_number(value)?).ok()?;
    NodeId::new(found)
}

/// The node-ID that a device configuration file has.
fn node_in<'a>(items: &[Item<'a>]) -> Result<NodeId, ImportFault<'a>>
    ensures { (file : _) → AreOf file items.now → IfOk result (IsNodeOf file) }
{
    let Some(item) = node_item(items) else {
        return Err(ImportFault::NoNode);
    };
    match node_of(item.value) {
        Some(node) => Ok(node),
        None => Err(ImportFault::BadNode(*item)),
    }
}

/// The slave's node-ID: that of the words, else the file's.
fn id_of<'a>(items: &[Item<'a>], words: &ImportWords) -> Result<NodeId, ImportFault<'a>>
    ensures { (file : _) → AreOf file items.now
        → IfOk result (λ n. MatchOption words.now.id (IsNodeOf file n) (λ id. n ≡ id)) }
{
    match words.id {
        Some(id) => Ok(id),
        None => node_in(items),
    }
}

/// 1F81h of a slave that is booted.
fn assignment(mandatory: bool) -> Assignment
    ensures { result.0 ≡ (if mandatory then 13 else 5) }
{
    Assignment(if mandatory { 0x0D } else { 0x05 })
}

/// The number that is listed: 0 where what stands in the file is none.
fn listed_number(found: &Result<u32, Item<'_>>) -> u32
    ensures { result ≡ number_or_0 found.now }
{
    match found {
        Ok(number) => *number,
        Err(_) => 0,
    }
}

/// What the list says of the slave beside its writes.
fn listed_terms(identity: &Identity<'_>, words: &ImportWords) -> Terms
    ensures { (file : _) (node : _) (told : _) → AreIdentitiesOf file node identity.now
        → AreUnreadOf file node identity.now → AreTold identity.now told
        → (words.now.mandatory ≡ true → AreRead identity.now) → AreTermsOf file words.now node told result }
{
    Terms {
        assignment: assignment(words.mandatory),
        device_type: listed_number(&identity.device_type),
        vendor: listed_number(&identity.vendor),
        product: listed_number(&identity.product),
        revision: listed_number(&identity.revision),
        serial: listed_number(&identity.serial),
        heartbeat_ms: words.heartbeat_ms,
        date: 0,
        time: 0,
        writes: 0,
    }
}

/// A slave that is made of a file.
#[derive(Drop)]
pub(crate) struct Imported<'a> {
    pub id: NodeId,
    pub entry: SlaveEntry,
    /// What its device is compared with.
    pub identity: Identity<'a>,
    /// The product's name.
    pub product: &'a [u8],
    pub settings: Settings<'a>,
}

/// The writes, without the names of their objects.
fn writes_of(settings: &Settings<'_>) -> ArrayVec<Configuring, 32>
    ensures { (file : _) (node : _) → AllWrites (IsSetting file node) settings.now
        → All (IsSetting file node) result.items }
{
    let mut writes = ArrayVec::new();
    for setting in settings.settings.as_slice() {
        let _ = writes.try_push(setting.write);
    }
    writes
}

/// The writes of a file, where they may be the slave's.
fn settings_in<'a>(
    alloc: Global,
    items: &[Item<'a>],
    node: NodeId,
    words: &ImportWords,
) -> Result<Settings<'a>, ImportFault<'a>>
    ensures { (file : _) → AreOf file items.now → IfOk result (AllWrites (IsSetting file node)) }
{
    let most = words.first.unwrap_or(MOST_WRITES).min(MOST_WRITES);
    let Ok(settings) = settings_of(alloc, items, node, most) else {
        return Err(ImportFault::File(FileFault::OutOfMemory));
    };
    if 0 < settings.behind && words.first.is_none() {
        return Err(ImportFault::Many(settings));
    }
    if settings.behind < settings.unwritten.len() && !words.is_partly {
        return Err(ImportFault::Unwritten(settings));
    }
    Ok(settings)
}

/// Whether a slave of this identity may be listed: a mandatory one only where all of it was read.
fn may_be_listed(identity: &Identity<'_>, words: &ImportWords) -> bool
    ensures { IsTrue result → words.now.mandatory ≡ true → AreRead identity.now }
{
    !words.mandatory || identity.is_read()
}

/// That not all of what the device of a mandatory slave is compared with can be read.
fn unread_fault<'a>(alloc: Global, identity: &Identity<'_>) -> ImportFault<'a> {
    let mut lines = Vec::new(alloc);
    match put_uncompared(alloc, identity, "  ", &mut lines) {
        Ok(()) => ImportFault::Unread(lines),
        Err(_) => ImportFault::File(FileFault::OutOfMemory),
    }
}

/// The slave that the sections of a file give.
pub(crate) fn slave_of<'a>(
    alloc: Global,
    items: &[Item<'a>],
    words: &ImportWords,
) -> Result<Imported<'a>, ImportFault<'a>>
    ensures { (file : _) → AreOf file items.now → AreAllOf file items.now
        → IfOk result (λ s. (told : _) → AreTold s.identity told
        → IsOfFile file words.now s.id told (terms_of s.entry) s.entry.writes.items) }
{
    if !has_device(items) {
        return Err(ImportFault::NoDevice);
    }
    let id = id_of(items, words)?;
    let identity = identity_of(items, id);
    if !may_be_listed(&identity, words) {
        return Err(unread_fault(alloc, &identity));
    }
    let settings = settings_in(alloc, items, id, words)?;
    let terms = listed_terms(&identity, words);
    let writes = writes_of(&settings);
    let product = value_of(items, "DeviceInfo", "ProductName").unwrap_or(b"");
    Ok(Imported {
        id,
        entry: SlaveEntry::from_terms(terms, writes),
        identity,
        product,
        settings,
    })
}
