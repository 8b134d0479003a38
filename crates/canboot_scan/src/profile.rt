//! What CiA's device profiles are about.

/// The number of the device profile that a device type (CiA 301, 1000h) names in its low 16 bits, and what the profile is about, where
/// that is known here.
pub(crate) fn profile_words(device_type: u32) -> Option<(u32, &'static str)> {
    let number = device_type % 65536;
    let words = match number {
        401 => "generic I/O modules",
        402 => "drives and motion control",
        404 => "measuring devices and closed-loop controllers",
        405 => "IEC 61131-3 programmable devices",
        406 => "encoders",
        408 => "fluid power technology: proportional valves and hydrostatic transmissions",
        410 => "inclinometers",
        412 => "medical devices",
        413 => "truck gateways",
        414 => "weaving machines",
        415 => "road construction machinery",
        416 => "building door control",
        417 => "lift control systems",
        418 => "battery modules",
        419 => "battery chargers",
        420 => "extruder downstream devices",
        422 => "municipal vehicles",
        425 => "medical diagnostic add-on modules",
        430 => "auxiliary operating devices for diesel engines in rail vehicles",
        443 => "SIIS level-2 devices",
        444 => "container-handling machine add-on devices",
        445 => "RFID devices",
        446 => "AS-Interface gateways",
        447 => "special-purpose car add-on devices",
        450 => "pumps",
        452 => "drives with a PLCopen interface",
        453 => "power supplies",
        454 => "energy management systems",
        459 => "on-board weighing devices",
        461 => "weighing devices",
        462 => "item detection devices",
        _ => return None,
    };
    Some((number, words))
}
